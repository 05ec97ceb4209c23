//! Theories, evaluation, frames and static equivalence.
//!
//! The definitions stand in `specs/`: `Theory` (rewrite rules and which lists of them are accepted), `Evaluation` (call by
//! value) and `Frames` (recipes, their values, static equivalence). Their laws are the contracts of `laws`, and `examples`
//! has small frames that an attacker tells apart or not. A `Rule` and a `Theory` are seen as the definitions of these
//! names; each `Theory` is accepted, and its rules hold declared names and variables alone.
#![tactic(auto)]

mod check;
mod checkable;
pub mod examples;
mod form;
mod index;
pub mod laws;
mod overlap;
mod projections;
mod rule;
mod shapes;
#[cfg(test)]
mod tests;
mod theory;

pub use check::TheoryRefusal;
pub use checkable::are_checkable;
pub use form::FormFault;
pub use rule::Rule;
pub use theory::Theory;

/// Rules and theories may be handed to other threads and be shared with them.
pub fn are_shared() {
    is_shared::<Rule>();
    is_shared::<Theory>();
}

fn is_shared<T: Send + Sync>() {}
