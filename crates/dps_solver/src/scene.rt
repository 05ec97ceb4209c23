//! What the solver is given.

use dps_terms::Term;

/// Says that no choice of trees for the free variables makes the two of each pair, a tree and a pattern, equal.
#[derive(Drop)]
pub struct Disequation {
    pub free: Vec<u64>,
    pub pairs: Vec<(Term, Term)>,
}

/// A tree of at most this level is sought that has the value of the term. It goes by the name of a variable.
#[derive(Drop)]
pub struct Target {
    pub name: u64,
    pub level: u32,
    pub term: Term,
}
