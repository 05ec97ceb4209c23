//! Processes, problems, steps, traces and trace equivalence, as contracts speak of them.
//!
//! The definitions stand in `specs/`: `Process` and `Problem`, `Models` and `Steps` (configurations and their labelled steps),
//! `Traces` (traces, equivalence, attacks) and `Lawful` (what runs keep). Their laws are the contracts of `laws` and `silence`.
#![tactic(auto)]

mod binders;
mod checking;
mod closing;
mod comparing;
mod label;
pub mod laws;
mod model;
mod problem;
mod process;
pub mod silence;
mod substitution;
#[cfg(test)]
mod tests;

pub use label::Label;
pub use model::CommModel;
pub use problem::Problem;
pub use process::{Process, ProcessView};

/// Processes and problems may be handed to other threads and be shared with them.
pub fn are_shared() {
    is_shared::<Process>();
    is_shared::<Problem>();
    is_shared::<Label>();
}

fn is_shared<T: Send + Sync>() {}
