//! Terms of which greater ones are built.
ghost use Rattle.std.specs.Prelude.{◌≡◌, ◌<◌, ◌≤◌, ◌∷◌, ◌++◌, [], ◌+◌, length, take, drop, reverse, true, OnOk, OnErr, IfOk};
ghost use Rattle.smallvec.specs.SmallVec.{HasRoomFor};
ghost use Rattle.dps_terms.specs.Tree.{app, leaf as leaf_tree, trees, count, node_counts};
ghost use Rattle.dps_terms.specs.Cells.{AreTerms, forest, front};

use crate::cells::{Cell, leaf_cell};
use crate::{NoMemory, Sym, Term, TermLeaf, TermRef};
use smallvec::SmallVec;
use std::alloc::{AllocError, Global};
use std::marker::Model;

/// Terms, the one that was put there last in front. A symbol takes its arguments from the front, so the last argument
/// goes there first. Each step takes time by the cells that it adds, and building a term time by its size.
#[derive(Drop)]
pub struct TermStack {
    // the cells of the terms, from the last one to the first
    cells: SmallVec<Cell, 8>,
}

impl Model for TermStack {
    ghost use Rattle.std.specs.Prelude.{List};
    ghost use Rattle.std.specs.Coded.{coded_list};
    ghost use Rattle.dps_terms.specs.Tree.{Tree};
    ghost use Rattle.dps_terms.specs.Stored.{tree_code};

    ghost Value = { List Tree };

    ghost coded = { coded_list tree_code };

    ghost use Rattle.dps_terms.specs.Stacks.{trees_on, IsStack};

    ghost view = { λ a. trees_on a.cells.items };

    ghost invariant = { λ a. IsStack a.cells.items };
}

impl TermStack {
    ghost use Rattle.dps_terms.specs.Cells.{IsLeafCell, leaf_of};
    ghost use Rattle.dps_terms.specs.Leaves.{leaf_seen};
    ghost use Rattle.dps_terms.specs.Seen.{seen};

    /// No terms. It takes no memory.
    pub fn empty(alloc: Global) -> TermStack
        ensures { result ≡ [] }
    {
        TermStack {
            cells: SmallVec::new(alloc),
        }
    }

    /// Puts a copy of the term in front. Where it fails, nothing has changed.
    pub fn push(&mut self, term: TermRef<'_>) -> Result<(), NoMemory>
        ensures ok { OnOk result (self.new ≡ seen term.entry ∷ self.old) }
        ensures err { OnErr result (self.new ≡ self.old) }
    {
        let cells = term.cells;
        self.cells.reserve(cells.len())?;
        put_backward(&mut self.cells, cells);
        Ok(())
    }

    /// Puts a leaf in front. Where it fails, nothing has changed.
    pub fn push_leaf(&mut self, leaf: TermLeaf) -> Result<(), NoMemory>
        ensures ok { OnOk result (self.new ≡ leaf_tree (leaf_seen leaf) ∷ self.old) }
        ensures err { OnErr result (self.new ≡ self.old) }
    {
        self.push_cell(leaf_cell(leaf))
    }

    /// Puts the leaf that the cell is in front. Where it fails, nothing has changed.
    fn push_cell(&mut self, cell: Cell) -> Result<(), NoMemory>
        requires { IsLeafCell cell }
        ensures ok { OnOk result (self.new ≡ leaf_tree (leaf_of cell) ∷ self.old) }
        ensures err { OnErr result (self.new ≡ self.old) }
    {
        self.cells.push(cell)?;
        Ok(())
    }

    /// Puts the symbol over as many terms from the front in their place. Where it fails, nothing has changed.
    pub fn apply(&mut self, sym: Sym, arity: u32) -> Result<(), NoMemory>
        requires few { arity ≤ 8 }
        requires there { arity ≤ length self.old }
        ensures ok { OnOk result (self.new ≡ app sym (trees (take arity self.old)) ∷ drop arity self.old) }
        ensures err { OnErr result (self.new ≡ self.old) }
    {
        let Ok(below) = u32::try_from(width_in_front(self.cells.as_slice(), arity)) else {
            return Err(AllocError);
        };
        let Some(width) = below.checked_add(1) else {
            return Err(AllocError);
        };
        self.cells.push(Cell::App(sym, arity, width))?;
        Ok(())
    }

    /// Takes the term in front away. Where it fails, nothing has changed. It takes time by the term's size.
    pub fn pop(&mut self) -> Result<Term, NoMemory>
        requires { 0 < length self.old }
        ensures ok { IfOk result (λ t. self.old ≡ t ∷ self.new) }
        ensures err { OnErr result (self.new ≡ self.old) }
    {
        let cells = self.cells.as_slice();
        let left = cells.len() - width_in_front(cells, 1);
        let (_, front) = cells.split_at(left);
        let mut copied = SmallVec::from_slice(*self.cells.allocator(), front)?;
        copied.as_mut_slice().reverse();
        self.cells.truncate(left);
        Ok(Term { cells: copied })
    }

    /// The only term that is there. It takes no memory.
    pub fn into_term(self) -> Term
        requires { length self ≡ 1 }
        ensures { self ≡ result ∷ [] }
    {
        let mut cells = self.cells;
        cells.as_mut_slice().reverse();
        Term { cells }
    }
}

/// Puts the cells behind those that are there, the last one first. There has to be room.
fn put_backward(cells: &mut SmallVec<Cell, 8>, added: &[Cell])
    requires { HasRoomFor cells.old (length added.now) }
    ensures { cells.new.items ≡ cells.old.items ++ reverse added.now }
{
    let mut left = added.len();
    while left > 0 {
        left -= 1;
        cells.push_reserved(added[left]);
    }
}

/// The number of cells of so many terms from the front. The cells go from the last one to the first.
fn width_in_front(cells: &[Cell], terms: u32) -> usize
    requires sound { AreTerms (reverse cells.now) }
    requires there { terms ≤ count (forest (reverse cells.now)) }
    ensures { result ≡ node_counts (front terms (forest (reverse cells.now))) }
{
    let mut rest = cells;
    let mut left = terms;
    while left > 0 {
        let width = rest[rest.len() - 1].width();
        rest = rest.split_at(rest.len() - width).0;
        left -= 1;
    }
    cells.len() - rest.len()
}
