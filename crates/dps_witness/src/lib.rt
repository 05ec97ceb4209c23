//! A file with a trace, beside a problem: what the trace comes to when it is looked at again, as a report.
//!
//! `specs/Reading` says which trace a file holds, under which model it is looked at, and which line is the first that is
//! wrong; `specs/Answers` what is reported.
#![tactic(auto)]

mod answering;
mod model;
mod reading;
mod reporting;
mod source;

pub use reporting::witness;
