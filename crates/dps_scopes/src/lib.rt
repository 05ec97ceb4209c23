//! What an identifier means where it stands, and what a term says.
//!
//! The tables: the `signature` that grows, the processes that are defined so far (`definitions`), and the locals at a
//! place (`scope`, `texts`). `specs/Scopes.antt` has what an identifier means by them, `specs/Terms.antt` what a term of a
//! process says, and `specs/RuleTerms.antt` what a term of a rule says, each or the first fault of its names. `Body` is
//! a process as a file writes it, with no text for a name.
#![tactic(auto)]

mod body;
pub mod definitions;
pub mod fault;
pub mod meaning;
pub mod parts;
pub mod rule_term;
pub mod scope;
pub mod signature;
pub mod term;
#[cfg(test)]
mod tests;
pub mod texts;
mod written;

pub use body::{Body, BodyView, Channel, Step};
pub use definitions::Definition;
pub use fault::{NameCause, NameFault, NameRefusal};
pub use meaning::{Meaning, Projection};
pub use written::{Use, Written};
