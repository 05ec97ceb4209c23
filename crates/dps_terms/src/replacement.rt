//! Terms in the place of leaves.
ghost use Rattle.std.specs.Prelude.{◌≡◌, ◌≤◌, ◌∷◌, ◌+◌, length, true, IfOk, OnOk};
ghost use Rattle.dps_terms.specs.Tree.{Leaf, Tree, Trees, list_of};
ghost use Rattle.dps_terms.specs.Replace.{replace, replace_all};
ghost use Rattle.dps_terms.specs.Cells.{are_narrow, AreTerms, forest, over, arity_at};
ghost use Rattle.dps_terms.specs.Leaves.{leaf_seen};
ghost use Rattle.dps_terms.specs.Seen.{seen};

use crate::cells::{Cell, cell_leaf};
use crate::{NoMemory, Term, TermLeaf, TermRef, TermStack};
use std::alloc::{AllocError, Global};

/// What the leaves of a term become.
pub trait Replacement {
    /// The tree that takes the place of a leaf.
    ghost becomes: { Self → Leaf → Tree };

    /// Puts the tree that takes the leaf's place in front.
    fn put(&self, leaf: TermLeaf, stack: &mut TermStack) -> Result<(), NoMemory>
        ensures { OnOk result (stack.new ≡ becomes self.now (leaf_seen leaf) ∷ stack.old) };
}

impl<'a> TermRef<'a> {
    /// The tree with other trees in the place of its leaves. It takes time by the sizes of both, and no stack by depth.
    pub fn replaced<R: Replacement>(self, alloc: Global, by: &R) -> Result<Term, NoMemory>
        ensures { IfOk result (λ t. t ≡ replace (R.becomes by.now) (seen self.entry)) }
    {
        let stack = instances(alloc, self.cells, by)?;
        Ok(stack.into_term())
    }
}

/// The terms of the cells, with other trees in the place of their leaves.
fn instances<R: Replacement>(alloc: Global, cells: &[Cell], by: &R) -> Result<TermStack, NoMemory>
    requires terms { AreTerms cells.now }
    requires narrow { are_narrow (forest cells.now) ≡ true }
    ensures { IfOk result (λ s. s ≡ list_of (replace_all (R.becomes by.now) (forest cells.now))) }
{
    let mut stack = TermStack::empty(alloc);
    let mut left = cells.len();
    while left > 0 {
        left -= 1;
        put_instance(&mut stack, cells[left], by)?;
    }
    Ok(stack)
}

/// Puts on what the cell and the terms on the stack make.
#[inline]
fn put_instance<R: Replacement>(stack: &mut TermStack, cell: Cell, by: &R) -> Result<(), NoMemory>
    requires few { arity_at cell ≤ 8 }
    requires there { arity_at cell ≤ length stack.old }
    ensures { (ts : Trees) → stack.old ≡ list_of (replace_all (R.becomes by.now) ts) → OnOk result (stack.new ≡ list_of (replace_all (R.becomes by.now) (over cell ts))) }
{
    match cell {
        Cell::App(sym, arity, _) => stack.apply(sym, arity),
        _ => by.put(cell_leaf(cell), stack),
    }
}
