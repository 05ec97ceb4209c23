//! Laws of files. Each is the contract of a function that does nothing, but for calls of such functions.

ghost use Rattle.dps_syntax.specs.LawsOfFiles.{NoTokensHaveTwoTrees, NoWordsHaveFileAndFault, EachListHasFileOrFault, NoWordsHaveTwoFaults, EachTextIsFileOrHasFault, NoTextIsFileAndHasFault, NoTextHasTwoFaults, TreesAreDeclared};

use dps_lex::{each_text_has_a_reading, no_text_has_two_readings};

/// Some tokens have at most one derivation tree.
pub fn no_tokens_have_two_trees()
    ensures { NoTokensHaveTwoTrees }
{}

/// No words have both a file within the depth and a first fault.
pub fn no_words_have_file_and_fault()
    ensures { NoWordsHaveFileAndFault }
{}

/// Each list of words is that of a file within the depth, or has a first fault.
pub fn each_list_has_file_or_fault()
    ensures { EachListHasFileOrFault }
{}

/// No words have two first faults.
pub fn no_words_have_two_faults()
    ensures { NoWordsHaveTwoFaults }
{}

/// Each text is a file or has a first fault.
pub fn each_text_is_file_or_has_fault()
    ensures { EachTextIsFileOrHasFault }
{
    each_text_has_a_reading();
}

/// No text is a file and has a first fault.
pub fn no_text_is_file_and_has_fault()
    ensures { NoTextIsFileAndHasFault }
{
    no_text_has_two_readings();
}

/// No text has two first faults.
pub fn no_text_has_two_faults()
    ensures { NoTextHasTwoFaults }
{
    no_text_has_two_readings();
}

/// The trees of a text are those of declarations that begin with their keywords.
pub fn trees_are_declared()
    ensures { TreesAreDeclared }
{}
