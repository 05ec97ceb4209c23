//! What the attacker knows: entries, recorded compositions, and the trees that he builds of them.
//!
//! A tree stands for a way to build a term: constructors over public names, entries and variables. Contracts see a `Know`
//! as the list of its entries and the list of the trees of handles (`Know`).
#![tactic(auto)]

mod know;
mod recipes;
mod subterms;
#[cfg(test)]
mod tests;

pub use know::{Entry, Know, is_normal};
