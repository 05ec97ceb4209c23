//! What the list of the search says of all solutions.
//!
//! A scene is valid where the search's answer can be relied on, and sharp where even the trees of all targets can (`Valid`).
//! The directions say what the listed solutions are (`Directions`). What else is known of them stands in `Shapes` (plain ones,
//! bindings and their levels), `Made` (what they hold), `Heads` (the answers of the first one), `Fresh` (the attacker's own
//! names as a solution) and `Values` (the values of entries). Each is the contract of a function of `laws`.
#![tactic(auto)]

pub mod laws;
