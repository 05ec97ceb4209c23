//! Constraint systems of the attacker's knowledge, and the search for their most general solutions.
//!
//! A constraint system has variables for trees that the attacker is free to choose (`Scene`, `Solutions`), and the search
//! lists what choices there are for an ask (`Search`). Its laws are the contracts of `laws`.
#![tactic(auto)]

mod excluding;
pub mod laws;
mod scene;
#[cfg(test)]
mod tests;

pub use excluding::excluded;
pub use scene::{Disequation, Target};
