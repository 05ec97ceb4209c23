//! Laws of the verdicts of texts. Each is the contract of a function that does nothing, but for calls of such functions.
ghost use Rattle.dps_judge.specs.LawsOfTexts.{BuiltTextsArePlain, NoTextIsRefusedTwice, NoTheoryIsRefusedTwice, NoTextIsRefusedAndJudged, NoTextHasTheoryAndNone, NoTextIsEquivalentAndAttacked, EachTextIsRefusedOrJudged};

use dps_meaning::laws::{
    each_text_has_fault_or_meaning, no_text_has_fault_and_meaning, no_text_has_fault_and_theory,
    no_text_has_two_faults, no_text_has_two_files, no_text_has_two_theory_faults,
    no_text_means_two_problems,
};
use dps_process::laws::attack_refutes;

/// A text that uses nothing that is not judged yet means a problem of outputs on public channels, without a rule.
#[tactic(none)]
pub fn built_texts_are_plain()
    ensures { BuiltTextsArePlain }
{}

/// No text is refused at two places, or with two texts of causes.
#[tactic(none)]
pub fn no_text_is_refused_twice()
    ensures { NoTextIsRefusedTwice }
{
    no_text_has_two_faults();
    no_text_has_fault_and_meaning();
    no_text_has_two_files();
}

/// The same of the theory of a text.
#[tactic(none)]
pub fn no_theory_is_refused_twice()
    ensures { NoTheoryIsRefusedTwice }
{
    no_text_has_two_theory_faults();
}

/// No text has an accepted theory and none.
#[tactic(none)]
pub fn no_text_has_theory_and_none()
    ensures { NoTextHasTheoryAndNone }
{
    no_text_has_fault_and_theory();
}

/// No text is refused and means a problem that is judged.
#[tactic(none)]
pub fn no_text_is_refused_and_judged()
    ensures { NoTextIsRefusedAndJudged }
{
    no_text_has_fault_and_meaning();
    no_text_has_two_files();
}

/// No text means an equivalent problem and has an attack.
#[tactic(none)]
pub fn no_text_is_equivalent_and_attacked()
    ensures { NoTextIsEquivalentAndAttacked }
{
    no_text_means_two_problems();
    attack_refutes();
}

/// Each text that is not too long is refused, or means a problem that is judged.
#[tactic(none)]
pub fn each_text_is_refused_or_judged()
    ensures { EachTextIsRefusedOrJudged }
{
    each_text_has_fault_or_meaning();
}
