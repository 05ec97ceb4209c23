//! The rules of a file: the theory that they make, or the first fault that they have.
//!
//! `specs/Rules.antt` has the theory of a program and the first flaw of its rules, and `specs/Bindings.antt` how the
//! unifier of two rules that overlap is written.
#![tactic(auto)]

mod bindings;
mod fault;
pub mod laws;
mod theory;

pub use fault::{RuleCause, RuleFault, RuleRefusal};
pub use theory::theory_of;
