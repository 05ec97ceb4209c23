//! What terms evaluate to, and what recipes give in frames.
//!
//! Both are exact by the definitions of evaluation and of frames (`dps_theory`). Evaluation is by value: each argument is
//! evaluated once, and a destructor tries the rules of its own root alone. One loop goes over the nodes of a term, so that
//! it may be of any depth.
#![tactic(auto)]

mod evaluation;
mod frame;
mod reduction;
#[cfg(test)]
mod tests;

pub use evaluation::{evaluate, value};
pub use frame::Frame;

/// Frames may be handed to other threads and be shared with them.
pub fn are_shared() {
    is_shared::<Frame>();
}

fn is_shared<T: Send + Sync>() {}
