//! Bags of numbers, and where to look for what has a digest.
//!
//! A bag is a list of numbers, which is kept in ascending order, so that equal bags are found by their digests whatever
//! the order in which their numbers came. Contracts judge bags up to the order of their numbers.
#![tactic(auto)]

mod bag;
mod bags;
mod digest;
mod places;
mod sets;
#[cfg(test)]
mod tests;

pub use bag::{is_repeated, without};
pub use bags::Bags;
pub use digest::with_numbers;
pub use places::Places;
pub use sets::joined;
use std::alloc::AllocError;

/// Want of memory.
pub type NoMemory = AllocError;
