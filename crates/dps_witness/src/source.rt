//! Where a file has the text of its trace.
ghost use Rattle.std.specs.Prelude.{◌≡◌, ◌↔◌, ℕ, List, Option, Some, IsTrue, IfOk, MatchOption};
ghost use Rattle.dps_report.specs.declared.outcome.Outcome.TheVariants.{NotEquivalent};
ghost use Rattle.dps_trace.specs.declared.model.ModelName.{ModelName};
ghost use Rattle.dps_witness.specs.Reading.{BeginsReport, IsSource};

use dps_report::{Outcome, Text, read_report};
use dps_terms::NoMemory;
use dps_trace::behind;
use std::alloc::Global;

/// Where the text is: it is the file itself, or stands in a report, or is missing in what begins as a report.
#[derive(Drop)]
pub(crate) enum Source {
    Alone,
    InReport(Text),
    Missing,
}

/// Whether the first line is that of a report.
#[tactic(auto, using(crate::proofs::Sources::for_begins_report))]
fn begins_report(bytes: &[u8]) -> bool
    ensures { IsTrue result ↔ BeginsReport bytes.now }
{
    if let Some(_) = behind(bytes, b"report 1\n") {
        return true;
    }
    match behind(bytes, b"report 2\n") {
        Some(_) => true,
        None => false,
    }
}

/// The text of the trace, where the outcome has one.
fn trace_of(outcome: Outcome) -> Option<Text>
    ensures { MatchOption result ((model : Option ModelName) (node text : List ℕ) → outcome ≡ NotEquivalent model node text → ⊥) (λ text. (model : Option ModelName) × (node : List ℕ) × (outcome ≡ NotEquivalent model node text)) }
{
    match outcome {
        Outcome::NotEquivalent { node, trace, .. } => {
            drop(node);
            Some(trace)
        }
        other => {
            drop(other);
            None
        }
    }
}

/// Where the file has the text of its trace.
#[tactic(auto, using(crate::proofs::Sources::for_source))]
pub(crate) fn find_text(alloc: Global, bytes: &[u8]) -> Result<Source, NoMemory>
    ensures { IfOk result (IsSource bytes.now) }
{
    if !begins_report(bytes) {
        return Ok(Source::Alone);
    }
    let Some(outcome) = read_report(alloc, bytes)? else {
        return Ok(Source::Missing);
    };
    match trace_of(outcome) {
        Some(text) => Ok(Source::InReport(text)),
        None => Ok(Source::Missing),
    }
}
