//! What a file means: its problem, or the place and the cause of its first fault.
//!
//! `specs/Meaning.antt` has what declarations and texts mean, and `specs/Faults.antt` their first faults.
#![tactic(auto)]

mod cause;
mod elaborate;
pub mod laws;
#[cfg(test)]
mod tests;
mod text;
mod theory;

pub use cause::{ElabCause, ElabRefusal};
pub use elaborate::problem;
pub use text::cause_text;
pub use theory::{CheckedFile, check_theory, theory_of};
