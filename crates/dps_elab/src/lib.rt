//! The sides of a file, written out.
//!
//! `specs/Expansion.antt` has the process that a side is once it is written out, and `specs/Meaning.antt` the first fault of
//! a program whose sides can not be written out.
#![tactic(auto)]

mod build;
mod expanding;
mod fault;
mod found;
pub mod laws;
mod local;
mod made;
mod parts;
mod settle;
mod stop;
mod writer;

pub use expanding::{Sides, expand};
pub use fault::{ExpandRefusal, ExpansionCause, ExpansionFault};
pub use found::{ChannelUse, PrivateUse};
pub(crate) use stop::Stop;
