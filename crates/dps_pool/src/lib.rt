//! Trees are explored for their first stop.
#![tactic(auto)]

mod found;
mod one;
pub mod table;
#[cfg(test)]
mod tests;

pub use found::Found;
pub use one::explore_one;
