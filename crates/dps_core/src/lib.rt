//! The pure machine of many workers over one tree: a book of paths, and a deck and a hand of tickets for each worker.
//!
//! `specs/Book` has the book and what a claim and a post do, `specs/Pool` the machine and its steps, `specs/Facts` what
//! holds after every run. The tree itself is unknown to the machine: a post says what stands at a path.
#![tactic(auto)]

mod event;
mod laws;
mod rows;
mod state;
#[cfg(test)]
mod tests;
mod tickets;

pub use event::{Claim, Event, Mark, Post, Posted};
pub use laws::facts_stay;
pub use rows::{Row, drop_after, kids_of};
pub use state::State;

/// States may be handed to other threads and be shared with them.
pub fn are_shared() {
    is_shared::<State>();
    is_shared::<Event>();
}

fn is_shared<T: Send + Sync>() {}
