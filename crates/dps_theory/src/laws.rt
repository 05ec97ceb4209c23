//! The laws of theories, evaluation and static equivalence. Each function does nothing: its contract is the law.
ghost use Rattle.dps_theory.specs.LawsOfFaults.{NoRulesHaveTwoFaults};
ghost use Rattle.dps_theory.specs.RulesDecided.{RulesAreDecided};
ghost use Rattle.dps_theory.specs.LawsOfEvaluation.{LeavesEvaluate, ArgumentsEvaluate, ConstructorsEvaluate, DestructorsEvaluate, UnknownSymbolsHaveNoValue, EvaluationIsDecided, EqualityIsDecided, ProjectionsGiveMembers, PrivateNamesAreAlike};
ghost use Rattle.dps_theory.specs.LawsOfTests.{EquivalenceIsOfTests};
ghost use Rattle.dps_theory.specs.Laws.{FaultyRulesAreNotAccepted, AcceptedRulesJoinProjections, EvaluatesAtMostOnce, PlainStays, ValuesArePlain, ValuesHoldNoNewLeaf, PlainRulesAreKept, ReplacedNamesEvaluate, ReplacedNamesReflect, StaticallyReflexive, StaticallySymmetric, StaticallyTransitive, PrefixesStayEquivalent, SeparatedAreNotEquivalent, EquivalenceIsOfValues, UndeclaredNamesAreUnseen};

/// Rules with a first fault make no accepted theory.
pub fn faulty_rules_are_not_accepted()
    ensures { FaultyRulesAreNotAccepted }
{}

/// Rules that are accepted by themselves are accepted behind those of the projections.
pub fn accepted_rules_join_projections()
    ensures { AcceptedRulesJoinProjections }
{}

/// What each form of term evaluates to, and that it does so in no other way.
pub fn terms_evaluate_by_form()
    ensures leaves { LeavesEvaluate }
    ensures arguments { ArgumentsEvaluate }
    ensures constructors { ConstructorsEvaluate }
    ensures destructors { DestructorsEvaluate }
    ensures unknown { UnknownSymbolsHaveNoValue }
{}

/// Under an accepted theory each term is a message or none, and two terms have one value or not.
pub fn evaluation_is_decided()
    ensures messages { EvaluationIsDecided }
    ensures equality { EqualityIsDecided }
{}

/// Projections give the members of tuples, and nothing of whatever else.
pub fn projections_give_members()
    ensures { ProjectionsGiveMembers }
{}

/// Where the rules hold no private name, evaluation does not see the numbers of private names.
pub fn private_names_are_alike()
    ensures { PrivateNamesAreAlike }
{}

/// Under an accepted theory a term evaluates to at most one value.
pub fn evaluates_at_most_once()
    ensures { EvaluatesAtMostOnce }
{}

/// A term of constructors over names evaluates to itself alone.
pub fn plain_stays()
    ensures { PlainStays }
{}

/// Where the rules hold declared names and variables alone, what a term evaluates to evaluates to itself.
pub fn values_are_plain()
    ensures { ValuesArePlain }
{}

/// A value holds no leaf but those of its term and of the right sides of rules.
pub fn values_hold_no_new_leaf()
    ensures { ValuesHoldNoNewLeaf }
{}

/// Rules of declared names and variables are left by whatever leaves the declared names.
pub fn plain_rules_are_kept()
    ensures { PlainRulesAreKept }
{}

/// Evaluation is kept where names that stand in no rule become terms that evaluate to themselves.
pub fn replaced_names_evaluate()
    ensures { ReplacedNamesEvaluate }
{}

/// Where such a replacement can be undone, the instance evaluates only where the term does.
pub fn replaced_names_reflect()
    ensures { ReplacedNamesReflect }
{}

/// A frame is statically equivalent to itself.
pub fn statically_reflexive()
    ensures { StaticallyReflexive }
{}

/// Static equivalence goes both ways.
pub fn statically_symmetric()
    ensures { StaticallySymmetric }
{}

/// Frames equivalent to one frame are equivalent.
pub fn statically_transitive()
    ensures { StaticallyTransitive }
{}

/// Statically equivalent frames begin with statically equivalent frames.
pub fn prefixes_stay_equivalent()
    ensures { PrefixesStayEquivalent }
{}

/// Frames that a test tells apart are not statically equivalent.
pub fn separated_are_not_equivalent()
    ensures { SeparatedAreNotEquivalent }
{}

/// Under an accepted theory static equivalence compares the values of recipes.
pub fn equivalence_is_of_values()
    ensures { EquivalenceIsOfValues }
{}

/// Static equivalence is one length and the same tests.
pub fn equivalence_is_of_tests()
    ensures { EquivalenceIsOfTests }
{}

/// Names that stand neither in the frames nor in the rules matter to no static equivalence.
pub fn undeclared_names_are_unseen()
    ensures { UndeclaredNamesAreUnseen }
{}

/// Rules make an accepted theory by themselves, or have a first fault.
pub fn rules_are_decided()
    ensures { RulesAreDecided }
{}

/// Rules have at most one first fault.
pub fn no_rules_have_two_faults()
    ensures { NoRulesHaveTwoFaults }
{}
