//! A trace looked at again: whether the other side of a problem has a run with the same labels whose frame no attacker tells
//! apart.
#![tactic(auto)]

mod frames;
pub mod laws;
mod matching;
mod outcome;
mod pairing;
mod replaying;
#[cfg(test)]
mod tests;
mod tests_of;

pub use outcome::Replay;
pub use replaying::replay;
