//! Most general unifiers.
ghost use Rattle.std.specs.Prelude.{◌≡◌, ◌++◌, ◌∷◌, [], ℕ, List, None, IfOk, MatchOption, MatchBool};
ghost use Rattle.dps_terms.specs.Tree.{var, Tree, StandsIn};
ghost use Rattle.dps_terms.specs.Replace.{substitute};
ghost use Rattle.dps_terms.specs.Bindings.{bound};
ghost use Rattle.dps_terms.specs.Seen.{seen};
ghost use Rattle.dps_unify.specs.Unifier.{IsMgu, IsNotUnifiable};
ghost use Rattle.dps_unify.specs.Chain.{IsChain, solved};
ghost use Rattle.dps_unify.specs.Kept.{trees_of, IsKnown};
ghost use Rattle.dps_unify.specs.Unified.{IsUnified};

use crate::VarOrder;
use crate::binding::{Binding, forced_binding};
use crate::bindings::Bindings;
use crate::difference::next_difference;
use crate::pending::Pending;
use crate::reaching::reaches;
use crate::solution::solution;
use dps_terms::{NoMemory, Subst, Term};
use std::alloc::Global;

/// The idempotent most general unifier of the pairs in which each class of equal variables is represented by its least
/// one. It binds variables of the pairs alone, none to itself, and to terms over variables of the pairs. `None` comes
/// exactly where no substitution makes the two terms of each pair equal.
///
/// The terms are not copied while the unifier is sought: a variable is bound to a part of a pair, and the unifier's
/// terms are made at the end.
pub fn mgu(
    alloc: Global,
    order: &VarOrder,
    pairs: &[(Term, Term)],
) -> Result<Option<Subst>, NoMemory>
    ensures { IfOk result (λ o. MatchOption o (IsNotUnifiable pairs.now) (IsMgu order.now.levels.items pairs.now)) }
{
    match unify(alloc, order, Pending::new(alloc, pairs)?)? {
        Some(bindings) => {
            let unifier = solution(alloc, &bindings)?;
            Ok(Some(unifier))
        }
        None => Ok(None),
    }
}

/// Bindings that make the pending pairs equal.
fn unify<'a>(
    alloc: Global,
    order: &VarOrder,
    mut pending: Pending<'a>,
) -> Result<Option<Bindings<'a>>, NoMemory>
    requires { (b : List (ℕ × Tree)) → IsKnown b pending }
    ensures { IfOk result (λ o. MatchOption o (IsNotUnifiable (trees_of pending.entry)) (IsUnified order.now.levels.items (trees_of pending.entry))) }
{
    let mut bindings = Bindings::empty(alloc);
    while let Some(parts) = next_difference(&bindings, &mut pending)? {
        match forced_binding(order, parts) {
            Some(binding) => {
                if !bind(alloc, &mut bindings, binding)? {
                    return Ok(None);
                }
            }
            None => return Ok(None),
        }
    }
    Ok(Some(bindings))
}

/// Adds the binding and answers `true`, unless the variable stands in what its term becomes.
fn bind<'a>(
    alloc: Global,
    bindings: &mut Bindings<'a>,
    binding: Binding<'a>,
) -> Result<bool, NoMemory>
    requires chain { IsChain bindings.old }
    requires free { bound bindings.old binding.variable ≡ None }
    ensures added { IfOk result (λ b. MatchBool b (bindings.new ≡ bindings.old ++ (binding.entry.variable, seen binding.entry.term) ∷ []) (bindings.new ≡ bindings.old)) }
    ensures cycle { IfOk result (λ b. MatchBool b (¬ StandsIn (var binding.entry.variable) (substitute (solved bindings.old) (seen binding.entry.term)))
        (StandsIn (var binding.entry.variable) (substitute (solved bindings.old) (seen binding.entry.term)))) }
{
    let Binding { variable, term } = binding;
    if reaches(alloc, bindings, variable, term)? {
        return Ok(false);
    }
    bindings.bind(variable, term)?;
    Ok(true)
}
