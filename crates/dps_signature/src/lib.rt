//! Signatures, and the texts of terms over them.
//!
//! A signature is the lists of the symbols and the names that a text declares (`specs/Signature.antt`). Beside it stand
//! the kinds of terms over a signature (`Kinds`), the texts that symbols and names may have (`Names`) and the text of a
//! term (`Text`). The laws of the kinds are the contracts of `laws`.
#![tactic(auto)]

pub mod laws;
mod names;
mod over;
mod printing;
mod signature;
#[cfg(test)]
mod tests;

pub use names::{is_identifier, projection_text, tuple_text};
pub use over::is_over;
pub use printing::{LeafWriter, term_text, write_term};
pub use signature::{AddRefusal, Signature};

/// Whether a symbol builds messages or takes them apart.
#[derive(Clone, Copy, Debug, PartialEq, Eq)]
pub enum SymKind {
    /// Stands in messages.
    Constructor,
    /// Is computed away by the rules of a theory, or fails.
    Destructor,
}

/// Signatures may be handed to other threads and be shared with them.
pub fn are_shared() {
    is_shared::<Signature>();
}

fn is_shared<T: Send + Sync>() {}
