//! What is put for variables: in values by unifiers, and in trees piece by piece.
//!
//! A `Bindings` is seen as its pairs, and puts what they say by `image`. A tree is given in pieces, a leaf or a symbol over new
//! variables, and the pieces are put together when the last one is there. A call fails only for want of memory.
#![tactic(auto)]

mod bindings;
mod piece;
mod pieces;
mod unified;

pub use bindings::{Bindings, put, substitution};
pub use piece::{Given, Piece, Root};
pub use pieces::{nothing_given, put_in_turn, root_over, with_given};
pub use unified::{Unified, level, unify};
