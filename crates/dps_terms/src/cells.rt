//! Terms as lists of cells: a root before its arguments, and these from left to right.
ghost use Rattle.std.specs.Prelude.{◌≡◌, ◌<◌, length, slice_get, Some};
ghost use Rattle.dps_terms.specs.Tree.{list_of, count};
ghost use Rattle.dps_terms.specs.Cells.{cell_of, leaf_of, cells_of, all_cells, behind, forest, first, tree_of, AreTerms};
ghost use Rattle.dps_terms.specs.Leaves.{leaf_seen};

use crate::{PublicName, Sym, TermLeaf};

/// A node of a term.
#[derive(Clone, Copy, Debug, PartialEq, Eq)]
pub(crate) enum Cell {
    Declared(u32),
    /// A symbol, the number of its arguments, and the number of cells of the term of which it is the root.
    App(Sym, u32, u32),
    At(u64),
    Private(u64),
    Var(u64),
    Ax(u32),
    Entry(u64),
    Rigid(u64),
}

/// What stands in the places of a list that are not taken.
impl Default for Cell {
    fn default() -> Cell {
        Cell::Declared(0)
    }
}

impl Cell {
    ghost use Rattle.dps_terms.specs.Cells.{width as width_of};

    /// The number of cells of the term of which this is the root.
    pub(crate) fn width(self) -> usize
        ensures { result ≡ width_of self }
    {
        match self {
            Cell::App(_, _, width) => width as usize,
            _ => 1,
        }
    }
}

/// The cell of a leaf.
#[inline]
pub(crate) fn leaf_cell(leaf: TermLeaf) -> Cell
    ensures { result ≡ cell_of (leaf_seen leaf) }
{
    match leaf {
        TermLeaf::Public(PublicName::Declared(number)) => Cell::Declared(number),
        TermLeaf::Public(PublicName::At(number)) => Cell::At(number),
        TermLeaf::Private(number) => Cell::Private(number),
        TermLeaf::Var(number) => Cell::Var(number),
        TermLeaf::Ax(number) => Cell::Ax(number),
        TermLeaf::Entry(number) => Cell::Entry(number),
        TermLeaf::Rigid(number) => Cell::Rigid(number),
    }
}

/// The leaf that a cell is. For a symbol's cell it is some leaf.
#[inline]
pub(crate) fn cell_leaf(cell: Cell) -> TermLeaf
    ensures { leaf_seen result ≡ leaf_of cell }
{
    match cell {
        Cell::Declared(number) => TermLeaf::Public(PublicName::Declared(number)),
        Cell::At(number) => TermLeaf::Public(PublicName::At(number)),
        Cell::Private(number) => TermLeaf::Private(number),
        Cell::Var(number) => TermLeaf::Var(number),
        Cell::Ax(number) => TermLeaf::Ax(number),
        Cell::Entry(number) => TermLeaf::Entry(number),
        Cell::Rigid(number) => TermLeaf::Rigid(number),
        Cell::App(_, _, _) => TermLeaf::Var(0),
    }
}

/// The cells of the first term, and those behind it.
pub(crate) fn split_first(cells: &[Cell]) -> (&[Cell], &[Cell])
    requires terms { AreTerms cells.now }
    requires some { 0 < length cells.now }
    ensures first { result.0.now ≡ cells_of (first (forest cells.now)) }
    ensures rest { result.1.now ≡ all_cells (behind 1 (forest cells.now)) }
{
    cells.split_at(cells[0].width())
}

/// The cells of the term at a place, counted from 0.
pub(crate) fn at(cells: &[Cell], index: u32) -> &[Cell]
    requires terms { AreTerms cells.now }
    requires there { index < count (forest cells.now) }
    ensures tree { slice_get (list_of (forest cells.now)) index ≡ Some (tree_of result.now) }
    ensures again { cells_of (tree_of result.now) ≡ result.now }
{
    let mut rest = cells;
    let mut left = index;
    while left > 0 {
        rest = split_first(rest).1;
        left -= 1;
    }
    split_first(rest).0
}
