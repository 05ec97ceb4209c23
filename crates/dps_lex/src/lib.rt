//! Texts to tokens: the tokens of a protocol file, each with its span and its place, or the first lexical fault.
#![tactic(auto)]

mod alphabet;
mod comment;
mod laws;
mod lexeme;
mod position;
mod scan;
mod vocabulary;

pub use laws::{
    comments_are_as_expected, each_text_has_a_reading, no_text_has_two_readings, spans_are_in_order,
};
pub use position::end_place;
pub use scan::{tokens, tokens_up_to_fault};
pub use vocabulary::{Fault, FaultKind, LexRefusal, Place, Token, TokenKind};

#[cfg(test)]
mod tests;
