//! What a text comes to: whether its two processes are equivalent, an attack, or the place and the cause of a refusal; and
//! whether its rules are accepted.
#![tactic(auto)]

mod judging;
pub mod laws;
mod reading;
#[cfg(test)]
mod tests;
mod theory;
mod trace;
mod unbuilt;
mod verdict;

pub use judging::judge;
pub use reading::{Meaning, read_problem};
pub use theory::judge_theory;
pub use unbuilt::first_unbuilt;
pub use verdict::{TheoryVerdict, Verdict};
