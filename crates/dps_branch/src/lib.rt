//! The two sides of a problem, and trees whose nodes stop or have kids.
//!
//! `specs/LookTrees` has what stands at the nodes of a tree as plain data, and its first stop in the order of paths;
//! `specs/Looks` what an expansion of a node answers.
#![tactic(auto)]

mod branching;
mod kind;

ghost use Rattle.std.specs.Prelude.{◌≡◌};
ghost use Rattle.dps_branch.specs.Sides.{opposite};

pub use branching::{Branching, Look, OneTree};
pub use kind::StopKind;

/// One of the two processes of a query, as it stands there.
#[derive(Clone, Copy, Debug, PartialEq, Eq)]
pub enum Side {
    Left,
    Right,
}

impl Side {
    /// The side that this one is compared with.
    pub fn other(self) -> Side
        ensures { result ≡ opposite self }
    {
        match self {
            Side::Left => Side::Right,
            Side::Right => Side::Left,
        }
    }
}
