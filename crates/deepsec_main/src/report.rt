//! The text and the status of an answer.
ghost use Rattle.std.specs.Prelude.{◌≡◌, IfOk, IsErr};
ghost use Rattle.dps_report.specs.Reports.{text_bytes};
ghost use Rattle.deepsec_main.specs.Reports.{answer_text, report_status, status_of, stop_status, NeedsMemory};

use crate::answer::Answer;
use dps_report::{Outcome, ReportText, StopName, text};
use std::alloc::{AllocError, Global};

fn status_of_stop(name: StopName) -> u8
    ensures { result ≡ stop_status name }
{
    match name {
        StopName::TooLong => 8,
        StopName::OpenFault => 4,
        StopName::ReadFault => 4,
        StopName::WordsRefused => 7,
    }
}

fn status_of_report(outcome: &Outcome) -> u8
    ensures { result ≡ report_status outcome.now }
{
    match outcome {
        Outcome::Equivalent { .. } => 0,
        Outcome::NotEquivalent { .. } => 1,
        Outcome::Spent { .. } => 2,
        Outcome::Refused { .. } => 3,
        Outcome::Stopped { name, .. } => status_of_stop(*name),
        Outcome::TheoryAccepted { .. } => 0,
        Outcome::Attack { .. } => 1,
        Outcome::Matched { .. } => 0,
        Outcome::NoRun { .. } => 9,
        Outcome::NoMemory => 6,
    }
}

/// The status that the program ends with, where the text of the answer is written.
pub fn status(answer: &Answer) -> u8
    ensures { result ≡ status_of answer.now }
{
    match answer {
        Answer::Report { outcome } => status_of_report(outcome),
        Answer::Made { .. } => 0,
    }
}

/// The one text of an answer.
pub fn answer_text(alloc: Global, answer: &Answer) -> Result<ReportText, AllocError>
    ensures text { IfOk result (λ text. text_bytes text ≡ answer_text answer.now) }
    ensures memory { IsErr result → NeedsMemory answer.now }
{
    match answer {
        Answer::Report { outcome } => text(alloc, outcome),
        Answer::Made { text } => Ok(ReportText::Long(text.clone()?)),
    }
}
