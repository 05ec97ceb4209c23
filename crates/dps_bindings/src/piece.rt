//! Trees as they are given, piece by piece: a leaf, or a root over new variables.
ghost use Rattle.std.specs.Prelude.{◌<◌, ◌≤◌, ◌+◌, ◌^◌};

use dps_terms::{Sym, TermLeaf};

/// A symbol over variables that follow one another.
#[derive(Clone, Copy)]
pub struct Root {
    pub sym: Sym,
    pub arity: u32,
    /// The first variable.
    pub first: u64,
    ghost few: { arity ≤ 8 },
    ghost numbers: { first + arity < 2 ^ 64 },
}

/// A tree of at most two levels.
#[derive(Clone, Copy)]
pub enum Piece {
    Leaf(TermLeaf),
    Root(Root),
}

/// A variable with the piece that it got.
#[derive(Clone, Copy)]
pub struct Given {
    pub variable: u64,
    pub piece: Piece,
}
