//! Nodes of the partition tree as values.

use dps_branch::Side;
use dps_know::Know;
use dps_process::{Label, Process};
use dps_solver::Disequation;
use dps_terms::Term;

/// A configuration of a node. Its terms may hold the node's variables.
#[derive(Drop)]
pub struct SymConfig {
    pub side: Side,
    /// The processes that run side by side.
    pub parts: Vec<Process>,
    /// The messages that were put out.
    pub frame: Vec<Term>,
    /// The values of the entries.
    pub values: Vec<Term>,
    /// Whether what its parts communicate unseen stands in the node already.
    pub mixed: bool,
}

/// A node of the partition tree.
#[derive(Drop)]
pub struct Node {
    /// Its word. An input label holds the attacker's tree.
    pub labels: Vec<Label>,
    /// The level of each variable that was ever given, by its number, counted from 1.
    pub levels: Vec<u32>,
    pub know: Know,
    pub disequations: Vec<Disequation>,
    pub configs: Vec<SymConfig>,
    /// The length of the frames.
    pub m: u32,
    /// Whether all is known that can be deduced.
    pub closed: bool,
    /// Whether the last handle is still to be examined.
    pub examine: bool,
    /// The steps since the last label.
    pub count: u64,
}
