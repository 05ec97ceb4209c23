//! Traces, and their texts in both formats.
//!
//! `specs/Text` has the texts, by concatenation; `specs/Written` which labels may stand in a trace; `specs/Faults` which line
//! is the first that is wrong. Format 2 names the model of communication, and is what is printed; format 1 is read too.
#![tactic(auto)]

mod fault;
mod label;
pub mod laws;
mod lines;
mod model;
mod printing;
mod reading;
mod recipe;
#[cfg(test)]
mod tests;
mod trace;
mod turn;
mod words;

pub use fault::{TraceKind, TraceRefusal};
pub use lines::{Heading, behind, cut, read_heading, read_model_line, read_side_line};
pub use model::ModelName;
pub use printing::{print_trace, write_label};
pub use reading::read_trace;
pub use trace::Trace;
pub use words::numeral;

/// Traces may be handed to other threads and be shared with them.
pub fn are_shared() {
    is_shared::<Trace>();
}

fn is_shared<T: Send + Sync>() {}
