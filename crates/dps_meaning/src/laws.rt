//! Laws of what texts mean. Each is the contract of a function that does nothing, but for calls of such functions.
ghost use Rattle.dps_meaning.specs.Laws.{ReadFilesAreDeclared, NoTextHasTwoFiles, NoTextSaysTwoPrograms, NoTextMeansTwoProblems, MeaningsAreLawful, NoTextHasFaultAndTheory, NoTextHasFaultAndMeaning, NoTextHasTwoFaults, NoTextHasTwoTheoryFaults, EachTextHasFaultOrMeaning};

use dps_elab::laws::{binders_are_high, sides_are_lawful};
use dps_lex::no_text_has_two_readings;
use dps_names::laws::{programs_are_well_formed, rules_are_checkable};
use dps_rules::laws::{
    faulty_programs_are_flawed, flawed_programs_are_not_accepted, no_program_has_two_flaws,
};
use dps_syntax::{
    each_text_is_file_or_has_fault, no_text_has_two_faults as no_text_is_misread_twice,
    no_text_is_file_and_has_fault, no_tokens_have_two_trees, trees_are_declared,
};
use dps_theory::laws::{accepted_rules_join_projections, rules_are_decided};

/// The file that a text is read as has the declarations of the text.
#[tactic(none)]
pub fn read_files_are_declared()
    ensures { ReadFilesAreDeclared }
{}

/// A text is at most one file.
#[tactic(none)]
pub fn no_text_has_two_files()
    ensures { NoTextHasTwoFiles }
{
    no_text_has_two_readings();
    no_tokens_have_two_trees();
}

/// A text says at most one program.
#[tactic(none)]
pub fn no_text_says_two_programs()
    ensures { NoTextSaysTwoPrograms }
{
    no_text_has_two_readings();
    no_tokens_have_two_trees();
}

/// A text means at most one problem in a model.
#[tactic(none)]
pub fn no_text_means_two_problems()
    ensures { NoTextMeansTwoProblems }
{
    no_text_says_two_programs();
}

/// Each problem that a text means is lawful.
#[tactic(none)]
pub fn meanings_are_lawful()
    ensures { MeaningsAreLawful }
{
    programs_are_well_formed();
    rules_are_checkable();
    accepted_rules_join_projections();
    sides_are_lawful();
    binders_are_high();
}

/// No text has an accepted theory and a fault up to its rules.
#[tactic(none)]
pub fn no_text_has_fault_and_theory()
    ensures { NoTextHasFaultAndTheory }
{
    no_text_has_two_readings();
    no_tokens_have_two_trees();
    no_text_is_file_and_has_fault();
    flawed_programs_are_not_accepted();
}

/// No text has a fault and means a problem.
#[tactic(none)]
pub fn no_text_has_fault_and_meaning()
    ensures { NoTextHasFaultAndMeaning }
{
    no_text_has_two_readings();
    no_tokens_have_two_trees();
    no_text_is_file_and_has_fault();
    flawed_programs_are_not_accepted();
}

/// No text has a first fault at two places, or for two causes.
#[tactic(none)]
pub fn no_text_has_two_faults()
    ensures { NoTextHasTwoFaults }
{
    no_text_has_two_files();
    no_text_is_misread_twice();
    no_text_is_file_and_has_fault();
    flawed_programs_are_not_accepted();
    no_program_has_two_flaws();
}

/// The same of first faults up to the rules.
#[tactic(none)]
pub fn no_text_has_two_theory_faults()
    ensures { NoTextHasTwoTheoryFaults }
{
    no_text_has_two_files();
    no_text_is_misread_twice();
    no_text_is_file_and_has_fault();
    no_program_has_two_flaws();
}

/// Each text that is not too long has a first fault, or means a problem in each model.
#[tactic(none)]
pub fn each_text_has_fault_or_meaning()
    ensures { EachTextHasFaultOrMeaning }
{
    each_text_is_file_or_has_fault();
    trees_are_declared();
    rules_are_checkable();
    accepted_rules_join_projections();
    faulty_programs_are_flawed();
    rules_are_decided();
}
