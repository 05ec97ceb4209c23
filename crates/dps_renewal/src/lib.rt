//! New variables of bindings: which they are, their levels, and the numbers that they get.
#![tactic(auto)]

mod bindings;
mod levels;
mod numbers;
mod renewal;

pub use numbers::add_numbers;
pub use renewal::{Renewal, is_variable, put, renew};
