//! What a reader expects of the texts of traces over a signature, and of newlines. Each call does nothing.
ghost use Rattle.std.specs.Prelude.{◌≤◌, length};
ghost use Rattle.dps_trace.specs.Cut.{newlines};
ghost use Rattle.dps_trace.specs.LawsOfTexts.{NoTextIsTwoTraces, NoTraceHasFault, EachTraceHasText};

use dps_signature::Signature;

/// No text is that of two traces.
pub fn no_text_is_two_traces(signature: &Signature)
    ensures { NoTextIsTwoTraces signature.now }
{
    signature.spelled();
}

/// No text of a trace has a fault.
pub fn no_trace_has_fault(signature: &Signature)
    ensures { NoTraceHasFault signature.now }
{
    signature.spelled();
}

/// Each trace whose labels may stand in one has a text. By the first law, it is read again as this trace.
pub fn each_trace_has_text(signature: &Signature)
    ensures { EachTraceHasText signature.now }
{
    signature.spelled();
}

/// Newlines are no more than bytes.
#[tactic(auto, using(crate::proofs::LinesRead::newlines_few))]
pub fn newlines_are_few(bytes: &[u8])
    ensures { newlines bytes.now ≤ length bytes.now }
{
    let _bytes = bytes;
}
