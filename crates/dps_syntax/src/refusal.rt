//! Why there is no file.

use dps_lex::Fault;
use thiserror::Error;

/// Why there is no file.
#[derive(Clone, Copy, PartialEq, Eq, Debug, Error)]
pub enum SyntaxRefusal {
    /// The first fault of the text.
    #[error("{} at {}:{}", .0.kind.words(), .0.line, .0.column)]
    Fault(Fault),
    /// Want of memory.
    #[error("no memory")]
    Memory,
}
