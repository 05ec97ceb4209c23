//! Paths of a tree: the place of a node, the order of places, and their texts.
//!
//! A path is the list of the numbers of kids on the way from the root. `specs/Order` has the order of paths and their
//! prefixes, `specs/Text` the one text that each path has.
#![tactic(auto)]

mod order;
mod path;
mod reading;
#[cfg(test)]
mod tests;

pub use order::order_laws;
pub use path::{NoMemory, Path};
pub use reading::read_path;

/// Paths may be handed to other threads and be shared with them.
pub fn are_shared() {
    is_shared::<Path>();
}

fn is_shared<T: Send + Sync>() {}
