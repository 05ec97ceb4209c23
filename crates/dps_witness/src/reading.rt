//! Traces of texts, and the models under which they are looked at.
ghost use Rattle.std.specs.Prelude.{◌≡◌, ◌≤◌, ◌↔◌, length, IsTrue, IfOk, IfErr};
ghost use Rattle.dps_trace.specs.declared.fault.TraceRefusal.{TraceRefusal};
ghost use Rattle.dps_witness.specs.Reading.{NamesOther, IsRead, IsRefusal};

use crate::model::run_model;
use dps_process::CommModel;
use dps_signature::Signature;
use dps_trace::laws::newlines_are_few;
use dps_trace::{Trace, TraceKind, TraceRefusal, read_heading, read_trace};
use std::alloc::Global;

/// A trace, and the model under which it is looked at.
#[derive(Drop)]
pub(crate) struct Read {
    pub trace: Trace,
    pub model: CommModel,
}

/// Whether the text names a model under which it is not looked at.
fn names_other(option: Option<CommModel>, text: &[u8]) -> bool
    ensures { IsTrue result ↔ NamesOther option text.now }
{
    let Ok(heading) = read_heading(text) else {
        return false;
    };
    match run_model(option, heading.model) {
        Some(_) => false,
        None => true,
    }
}

/// The trace of the text, and the model under which it is looked at; or its first wrong line.
#[tactic(auto, using(crate::proofs::Models::for_read))]
pub(crate) fn trace_of(
    alloc: Global,
    signature: &Signature,
    option: Option<CommModel>,
    text: &[u8],
) -> Result<Read, TraceRefusal>
    requires { length text.now ≤ 1048576 }
    ensures read { IfOk result (λ read. IsRead signature.now option text.now read.trace read.model) }
    ensures fault { IfErr result (IsRefusal signature.now option text.now) }
{
    newlines_are_few(text);
    if names_other(option, text) {
        return Err(other_model());
    }
    let trace = match read_trace(alloc, signature, text) {
        Ok(trace) => trace,
        Err(refusal) => return Err(refusal),
    };
    match run_model(option, trace.model) {
        Some(model) => Ok(Read { trace, model }),
        None => Err(other_model()),
    }
}

fn other_model() -> TraceRefusal
    ensures { result ≡ TraceRefusal.Fault 2 TraceKind.Model }
{
    TraceRefusal::Fault {
        line: 2,
        kind: TraceKind::Model,
    }
}
