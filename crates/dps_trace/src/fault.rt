//! Why bytes are no trace.
ghost use Rattle.std.specs.Prelude.{◌≡◌};
ghost use Rattle.dps_trace.specs.Values.{kind_text};

use std::alloc::AllocError;

/// What is wrong with a line.
#[derive(Clone, Copy, Debug, PartialEq, Eq)]
pub enum TraceKind {
    /// The bytes are those of a report without a trace.
    NoTrace,
    /// Line 1 is neither `trace 1` nor `trace 2`.
    Header,
    /// Line 2 behind `trace 2` names no model.
    Model,
    /// The line behind these names no side.
    Side,
    /// A later line is no label over the signature, or is not ended by a newline.
    Label,
    /// It is one, but an output is not of the next handle, or a recipe holds the handle of no output so far.
    Ax,
}

impl TraceKind {
    /// The fault's name, as it is written.
    pub fn text(self) -> &'static str
        ensures { result.now ≡ kind_text self }
    {
        match self {
            TraceKind::NoTrace => "no trace",
            TraceKind::Header => "trace header",
            TraceKind::Model => "trace model",
            TraceKind::Side => "trace side",
            TraceKind::Label => "trace label",
            TraceKind::Ax => "trace ax",
        }
    }
}

/// Why no trace was read.
#[derive(Debug, Drop)]
pub enum TraceRefusal {
    /// The first line that is wrong, counted from 1, and what is wrong with it.
    Fault { line: u32, kind: TraceKind },
    /// There was no memory.
    Memory,
}

impl From<AllocError> for TraceRefusal {
    ghost use Rattle.dps_trace.specs.declared.fault.TraceRefusal.TheVariants.{Memory};

    ghost from_gives = { λ error refusal. refusal ≡ Memory };

    fn from(_error: AllocError) -> TraceRefusal {
        TraceRefusal::Memory
    }
}
