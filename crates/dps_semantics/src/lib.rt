//! The runs of configurations: what they settle to, how they act, and where the runs with a word end.
//!
//! A part settles by itself at once, since what it does silently commutes with all else: `0`, parallel parts, tests and
//! bindings in the one way that they can, a choice in both. What is left to search are communications. A table gives each
//! input and output a number, equal ones the same; a configuration is then the numbers of its parts in ascending order, so
//! that it stands once, whatever the order of its parts.
#![tactic(auto)]

mod acting;
mod coming;
mod config;
mod digest;
pub mod laws;
mod meeting;
mod moving;
mod once;
mod outcome;
mod parts;
mod putting;
mod recipe;
mod running;
mod settling;
#[cfg(test)]
mod tests;

pub use acting::act;
pub use config::Config;
pub use dps_process::Label;
pub use outcome::Runs;
pub use running::runs;
pub use settling::settle;

/// Configurations may be handed to other threads and be shared with them.
pub fn are_shared() {
    is_shared::<Config>();
}

fn is_shared<T: Send + Sync>() {}
