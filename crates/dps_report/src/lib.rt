//! Reports, and their texts in both formats.
//!
//! `specs/Reports` has the texts, by concatenation, and `specs/Outcomes` which outcomes have one. Format 2 names the model of
//! communication, and is what is printed; format 1 is read too.
#![tactic(auto)]

mod fields;
mod format;
mod outcome;
mod parts;
mod printing;
mod reading;
mod results;
#[cfg(test)]
mod tests;

pub use format::Format;
pub use outcome::{Outcome, StopName};
pub use parts::{Text, Texts};
pub use printing::{MEMORY_TEXT, ReportText, ShortText, text};
pub use reading::{read_again, read_report};

/// Outcomes may be handed to other threads and be shared with them.
pub fn are_shared() {
    is_shared::<Outcome>();
}

fn is_shared<T: Send + Sync>() {}
