//! What a run of the program comes to.
use dps_report::Outcome;

/// What the program answers, apart from a write fault.
#[derive(Drop)]
pub enum Answer {
    /// A report.
    Report { outcome: Outcome },
    /// The file that is made from a number, as a text.
    Made { text: String },
}
