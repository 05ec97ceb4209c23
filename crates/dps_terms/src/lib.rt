//! Terms and substitutions.
//!
//! The definitions stand in `specs/`: a term is a finite tree (`Tree`), and substitutions, frames put for handles and
//! renamings are one operation on it (`Replace`). The laws of these definitions are the contracts of `laws`. Contracts
//! see a `Term` as such a tree, and a `Subst` as the list of its pairs (`Bindings`).
#![tactic(auto)]

mod borrowed;
mod cells;
mod digests;
pub mod laws;
mod list;
mod nodes;
mod replacement;
mod stack;
mod subst;
mod term;
#[cfg(test)]
mod tests;

pub use borrowed::{TermRef, TermView};
pub use digests::mixed;
pub use list::TermList;
pub use replacement::Replacement;
pub use stack::TermStack;
use std::alloc::AllocError;
pub use subst::Subst;
pub use term::Term;

/// Want of memory.
pub type NoMemory = AllocError;

/// A symbol of a signature, by its place there, counted from 0.
#[derive(Clone, Copy, Debug, PartialEq, Eq)]
pub struct Sym {
    pub number: u32,
}

/// A name that the attacker has.
#[derive(Clone, Copy, Debug, PartialEq, Eq)]
pub enum PublicName {
    /// A public name of the signature, by its place there, counted from 0.
    Declared(u32),
    /// One of the attacker's own names `@0`, `@1` and so on, of which there is no end.
    At(u64),
}

/// What stands at an end of a term, by its maker.
#[derive(Clone, Copy, Debug, PartialEq, Eq)]
pub enum TermLeaf {
    /// A name that the attacker has.
    Public(PublicName),
    /// A name that is not the attacker's from the start.
    Private(u64),
    Var(u64),
    /// The handle of a frame's message, counted from 1.
    Ax(u32),
    /// An entry of the attacker's knowledge, counted from 1.
    Entry(u64),
    /// A name that stands for whatever the attacker may put in its place.
    Rigid(u64),
}

/// Terms and substitutions may be handed to other threads and be shared with them.
pub fn are_shared() {
    is_shared::<Term>();
    is_shared::<TermList>();
    is_shared::<Subst>();
}

fn is_shared<T: Send + Sync>() {}
