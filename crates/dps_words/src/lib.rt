//! What the words of the command line ask for.
//!
//! `specs/Words` says which words have a plan, and which word is the first wrong one.
#![tactic(auto)]

mod command;
#[cfg(test)]
mod tests;
mod words;

pub use command::{Command, Plan, PlanRefusal};
pub use words::{plan, word_of};
