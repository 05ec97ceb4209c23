//! The faults of expansion.
use dps_lex::Place;
use std::alloc::AllocError;

/// Why the sides of a file can not be written out.
#[derive(Clone, Copy, PartialEq, Eq, Debug)]
pub enum ExpansionCause {
    /// A side of more than 65,536 nodes, or with more than 1,000 on one path.
    TooLarge,
    /// What stands in a channel's place is no declared name.
    NotAChannel,
    /// A private name that is a channel stands in a term.
    PrivateChannel,
}

/// The first fault of a file's sides, and where it stands.
#[derive(Clone, Copy, PartialEq, Eq, Debug)]
pub struct ExpansionFault {
    pub place: Place,
    pub cause: ExpansionCause,
}

/// Why a program was not written out.
#[derive(Clone, Copy, PartialEq, Eq, Debug)]
pub enum ExpandRefusal {
    /// The first fault of its sides.
    Fault(ExpansionFault),
    /// Want of memory.
    Memory,
}

impl From<AllocError> for ExpandRefusal {
    ghost use Rattle.std.specs.Prelude.{◌≡◌};
    ghost use Rattle.dps_elab.specs.declared.fault.ExpandRefusal.TheVariants.{Memory};

    ghost from_gives = { λ _ refusal. refusal ≡ Memory };

    fn from(_error: AllocError) -> ExpandRefusal {
        ExpandRefusal::Memory
    }
}
