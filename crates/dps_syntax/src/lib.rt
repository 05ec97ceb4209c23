//! Texts to files: the derivation tree of a protocol file, or its first fault.
//!
//! The grammar is a table, `grammar`, and one loop reads it: `expected` is a stack of what may come next, and
//! `recognition` takes the tokens one by one and writes marks, where productions begin and end. `forest` and `builder`
//! make trees of the marks, so nothing recurses on the text. `specs/Grammar.antt` has the grammar, `specs/Depth.antt`
//! the first fault of a list of words, and `specs/Files.antt` files and faults of texts.
#![tactic(auto)]

mod builder;
mod declaration;
mod expected;
mod forest;
mod grammar;
mod laws;
mod leaf;
mod reading;
mod recognition;
mod refusal;
mod tree;

pub use grammar::{More, Production, Symbol, Word};
pub use laws::{
    each_list_has_file_or_fault, each_text_is_file_or_has_fault, no_text_has_two_faults,
    no_text_is_file_and_has_fault, no_tokens_have_two_trees, no_words_have_file_and_fault,
    no_words_have_two_faults, trees_are_declared,
};
pub use reading::{parse, read_file};
pub use refusal::SyntaxRefusal;
pub use tree::{Decl, File, Leaf, Part, Tree};

#[cfg(test)]
mod tests;
