use crate::Side;

/// Why a tree stops at a node.
#[derive(Clone, Copy, Debug, PartialEq, Eq)]
pub enum StopKind {
    /// The node shows an attack on this side.
    Attack(Side),
    /// The budget of steps does not cover the node.
    Spent,
}
