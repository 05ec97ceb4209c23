//! The faults of names.
ghost use Rattle.std.specs.Prelude.{◌≡◌, Err};
ghost use Rattle.dps_scopes.specs.Faults.{place_of};

use dps_lex::Place;
use dps_syntax::Leaf;
use std::alloc::{AllocError, AllocFailed};
use thiserror::Error;

/// What is wrong with a name, a number or a tuple of a file.
#[derive(Clone, Copy, PartialEq, Eq, Debug)]
pub enum NameCause {
    /// A name that is declared already, or that stands twice in one list of parameters or one pattern.
    NameTwice,
    /// A declared name that begins with `proj_`, or is `ax` followed by digits.
    ReservedName,
    /// An identifier that nothing declares.
    UnknownName,
    /// A name with more or fewer arguments than it takes.
    WrongArity,
    /// A process where a term has to stand, or a term where a process has to stand.
    WrongKind,
    /// More than eight arguments or members.
    LargeArity,
    /// A private name in a rule.
    PrivateInRule,
    /// No copies, or more than 64.
    BadCopies,
}

/// The first fault of a file's names, and where it stands.
#[derive(Clone, Copy, PartialEq, Eq, Debug)]
pub struct NameFault {
    pub place: Place,
    pub cause: NameCause,
}

/// Why a file has no program.
#[derive(Clone, Copy, PartialEq, Eq, Debug, Error)]
pub enum NameRefusal {
    /// The first fault of its names.
    #[error("{:?} at {}:{}", .0.cause, .0.place.line, .0.place.column)]
    Fault(NameFault),
    /// Out of memory.
    #[error("no memory")]
    Memory,
}

impl From<AllocError> for NameRefusal {
    ghost use Rattle.std.specs.Prelude.{◌≡◌};
    ghost use Rattle.dps_scopes.specs.declared.fault.NameRefusal.TheVariants.{Memory};

    ghost from_gives = { λ _ refusal. refusal ≡ Memory };

    fn from(_error: AllocError) -> NameRefusal {
        NameRefusal::Memory
    }
}

impl<T: Drop> From<AllocFailed<T>> for NameRefusal {
    ghost use Rattle.std.specs.Prelude.{◌≡◌};
    ghost use Rattle.dps_scopes.specs.declared.fault.NameRefusal.TheVariants.{Memory};

    ghost from_gives = { λ _ refusal. refusal ≡ Memory };

    fn from(_error: AllocFailed<T>) -> NameRefusal {
        NameRefusal::Memory
    }
}

/// Where a token stands.
pub fn place_of(leaf: &Leaf) -> Place
    ensures { result ≡ place_of leaf.now }
{
    Place {
        line: leaf.line,
        column: leaf.column,
    }
}

/// This fault, at a token.
pub fn fault_at<T>(cause: NameCause, leaf: &Leaf) -> Result<T, NameRefusal>
    ensures { result ≡ Err (NameRefusal.Fault (record { place = place_of leaf.now; cause = cause })) }
{
    Err(NameRefusal::Fault(NameFault {
        place: place_of(leaf),
        cause,
    }))
}
