//! Traces of texts.
ghost use Rattle.std.specs.Prelude.{◌≡◌, ◌≢◌, ◌⊎◌, ◌<◌, ◌^◌, ◌+◌, [], map, length, IfOk, IfErr, Ok, Err};
ghost use Rattle.dps_signature.specs.Spelled.{IsSpelled};
ghost use Rattle.dps_process.specs.Labels.{label_of};
ghost use Rattle.dps_trace.specs.Cut.{newlines};
ghost use Rattle.dps_trace.specs.Traces.{Trace};
ghost use Rattle.dps_trace.specs.Text.{IsTraceText, AreLabelLines};
ghost use Rattle.dps_trace.specs.Faults.{IsRefusedFor, HasWrongLine, BeginsLabel, IsWrongNext};
ghost use Rattle.dps_trace.specs.declared.fault.TraceRefusal.TheVariants.{Memory};

use crate::label::read_label;
use crate::lines::{cut, read_heading, read_side_line};
use crate::turn::{is_in_turn, outputs_behind};
use crate::{Trace, TraceKind, TraceRefusal};
use dps_process::Label;
use dps_signature::Signature;
use std::alloc::Global;

/// The trace of which the bytes are the text, in either format.
///
/// There are fewer than 2^32 - 1 newlines. `Fault` comes exactly where the bytes are no trace's text, with the first line that
/// is wrong. `Memory` where memory was wanting.
#[tactic(auto, using(crate::proofs::LinesRead::for_read_trace))]
pub fn read_trace(alloc: Global, signature: &Signature, bytes: &[u8]) -> Result<Trace, TraceRefusal>
    requires { newlines bytes.now + 1 < 2 ^ 32 }
    ensures read { IfOk result (λ trace. IsTraceText signature.now trace bytes.now) }
    ensures fault { IfErr result (λ refusal. IsRefusedFor signature.now bytes.now refusal) }
    ensures only { (trace : Trace) → IsTraceText signature.now trace bytes.now → (result ≡ Ok trace) ⊎ (result ≡ Err Memory) }
{
    signature.spelled();
    let heading = match read_heading(bytes) {
        Ok(heading) => heading,
        Err((line, kind)) => return Err(TraceRefusal::Fault { line, kind }),
    };
    let Some((side, rest)) = read_side_line(heading.rest) else {
        return Err(TraceRefusal::Fault {
            line: heading.lines + 1,
            kind: TraceKind::Side,
        });
    };
    match read_labels(alloc, signature, heading.lines + 2, rest) {
        Ok(labels) => Ok(Trace {
            model: heading.model,
            side,
            labels,
        }),
        Err(refusal) => Err(refusal),
    }
}

/// The labels of the lines, of which the first has this number.
#[tactic(auto, using(crate::proofs::LinesRead::for_read_labels))]
fn read_labels(
    alloc: Global,
    signature: &Signature,
    first: u32,
    bytes: &[u8],
) -> Result<Vec<Label>, TraceRefusal>
    requires spelled { IsSpelled signature.now }
    requires few { first + newlines bytes.now < 2 ^ 32 }
    ensures read { IfOk result (λ labels. AreLabelLines signature.now 0 (map label_of labels.items) bytes.now) }
    ensures fault { IfErr result (HasWrongLine signature.now first bytes.now) }
{
    let mut labels = Vec::new(alloc);
    let mut line = first;
    let mut outputs: u32 = 0;
    let mut rest = bytes;
    'lines: while !rest.is_empty() {
        match next_label(alloc, signature, line, outputs, rest) {
            Err(refusal) => return Err(refusal),
            Ok((label, behind)) => {
                outputs = outputs_behind(&label, outputs);
                line += 1;
                rest = behind;
                match labels.push(label) {
                    Err(_) => return Err(TraceRefusal::Memory),
                    Ok(()) => {}
                }
            }
        }
    }
    Ok(labels)
}

/// The label of the next line, which has this number and comes behind so many outputs, and what is behind that line.
#[tactic(auto, using(crate::proofs::LinesRead::for_next_label))]
fn next_label<'a>(
    alloc: Global,
    signature: &Signature,
    line: u32,
    outputs: u32,
    rest: &'a [u8],
) -> Result<(Label, &'a [u8]), TraceRefusal>
    requires { IsSpelled signature.now }
    ensures read { IfOk result (λ p. BeginsLabel signature.now outputs (label_of p.0) p.1.now rest.now) }
    ensures fault { IfErr result (IsWrongNext signature.now line outputs rest.now) }
{
    let Some((text, behind)) = cut(b'\n', rest) else {
        return Err(TraceRefusal::Fault {
            line,
            kind: TraceKind::Label,
        });
    };
    let Some(label) = read_label(alloc, signature, text)? else {
        return Err(TraceRefusal::Fault {
            line,
            kind: TraceKind::Label,
        });
    };
    if !is_in_turn(&label, outputs) {
        return Err(TraceRefusal::Fault {
            line,
            kind: TraceKind::Ax,
        });
    }
    Ok((label, behind))
}
