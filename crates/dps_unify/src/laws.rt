//! The laws of unifiers. Each function does nothing: its contract is the law.
ghost use Rattle.dps_unify.specs.Decided.{UnifiersAreDecided};
ghost use Rattle.dps_unify.specs.OneUnifier.{MguIsOne};

/// Pairs have a most general unifier, or no unifier at all.
pub fn unifiers_are_decided()
    ensures { UnifiersAreDecided }
{}

/// Two most general unifiers in which each class is represented by its least variable are one substitution.
pub fn mgu_is_one()
    ensures { MguIsOne }
{}
