//! Most general unifiers, matches and renamings.
//!
//! The definitions stand in `specs/`: what unifies pairs of terms and what a most general unifier is (`Unifier`), the
//! order of the variables (`Order`), matches (`Matching`) and renamings (`Renaming`). All of them quantify over
//! substitutions as functions from variables to trees.
#![tactic(auto)]

mod binding;
mod bindings;
mod difference;
pub mod laws;
mod matching;
mod order;
mod pending;
mod place;
mod reaching;
mod renaming;
mod solution;
#[cfg(test)]
mod tests;
mod unifier;

pub use matching::{extend_match, matches};
pub use order::VarOrder;
pub use renaming::rename;
pub use unifier::mgu;
