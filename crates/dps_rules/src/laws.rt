//! Laws of the definitions. Each is the contract of a function without a body to speak of.
ghost use Rattle.dps_rules.specs.LawsOfFlaws.{NoProgramHasTwoFlaws};
ghost use Rattle.dps_rules.specs.Laws.{FlawedProgramsAreNotAccepted, FaultyProgramsAreFlawed};

use dps_theory::laws::{faulty_rules_are_not_accepted, no_rules_have_two_faults};
use dps_unify::laws::mgu_is_one;

/// A program with a flaw in its rules has no accepted theory.
pub fn flawed_programs_are_not_accepted()
    ensures { FlawedProgramsAreNotAccepted }
{
    faulty_rules_are_not_accepted();
}

/// A program whose rules have a first fault has a flaw.
pub fn faulty_programs_are_flawed()
    ensures { FaultyProgramsAreFlawed }
{}

/// A program has at most one flaw.
#[tactic(none)]
pub fn no_program_has_two_flaws()
    ensures { NoProgramHasTwoFlaws }
{
    no_rules_have_two_faults();
    mgu_is_one();
}
