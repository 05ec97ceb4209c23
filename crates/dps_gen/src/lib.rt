//! Files that are made from a number, for schedules and benchmarks.
//!
//! `specs/Generated` has the text of a number.
#![tactic(auto)]

mod generator;
#[cfg(test)]
mod tests;

pub use generator::text;
