//! What a file says, with its names looked up, or the first fault of its names.
//!
//! `specs/Program.antt` has what a file says: a signature, rules, and processes in which a name is no text any more.
//! `specs/Declarations.antt` has the program of a list of declarations, or the first fault of its names.
#![tactic(auto)]

mod declaration;
pub mod laws;
mod number;
mod pattern;
mod process;
mod program;
mod rule;
mod shape;

pub use declaration::resolve;
pub use program::{Program, Side, WrittenRule};
