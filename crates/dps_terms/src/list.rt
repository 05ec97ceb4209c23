//! Lists of terms.
ghost use Rattle.std.specs.Prelude.{◌≡◌, ◌<◌, ◌∷◌, ◌++◌, [], length, slice_get, Some, OnOk, OnErr};
ghost use Rattle.dps_terms.specs.Tree.{list_of};
ghost use Rattle.dps_terms.specs.Cells.{cells_of, forest, tree_of};
ghost use Rattle.dps_terms.specs.Lists.{IsTermList};

use crate::cells::{Cell, split_first};
use crate::{NoMemory, TermRef};
use std::alloc::{AllocError, Global};
use std::marker::Model;

/// Terms, one after another in one buffer. Adding one takes time by its size, and taking one by its place none.
#[derive(Drop)]
pub struct TermList {
    // the cells of the terms, one term after another
    cells: Vec<Cell>,
    // of each term, how many cells stand before its own
    starts: Vec<usize>,
}

impl Model for TermList {
    ghost use Rattle.std.specs.Prelude.{List};
    ghost use Rattle.std.specs.Coded.{coded_list};
    ghost use Rattle.dps_terms.specs.Tree.{Tree};
    ghost use Rattle.dps_terms.specs.Stored.{tree_code};

    ghost Value = { List Tree };

    ghost coded = { coded_list tree_code };

    ghost use Rattle.dps_terms.specs.Lists.{trees_in, IsTermList};

    ghost view = { λ a. trees_in a.cells.items };

    ghost invariant = { λ a. IsTermList a.cells.items a.starts.items };
}

impl TermList {
    ghost use Rattle.dps_terms.specs.Seen.{seen};

    /// No terms. It takes no memory.
    pub fn empty(alloc: Global) -> TermList
        ensures { result ≡ [] }
    {
        TermList {
            cells: Vec::new(alloc),
            starts: Vec::new(alloc),
        }
    }

    /// How many terms there are.
    pub fn len(&self) -> usize
        ensures { result ≡ length self.now }
    {
        self.starts.len()
    }

    /// The term at a place, counted from 0. There has to be one.
    pub fn get(&self, index: usize) -> TermRef<'_>
        requires { index < length self.now }
        ensures { slice_get self.now index ≡ Some (seen result) }
    {
        let cells = self.cells.as_slice();
        let starts = self.starts.as_slice();
        TermRef {
            cells: term_at(cells, starts, index),
        }
    }

    /// Adds a copy of the term at the end. Where it fails, nothing has changed.
    pub fn push(&mut self, term: TermRef<'_>) -> Result<(), NoMemory>
        ensures ok { OnOk result (self.new ≡ self.old ++ seen term.entry ∷ []) }
        ensures err { OnErr result (self.new ≡ self.old) }
    {
        append(&mut self.cells, &mut self.starts, term.cells)?;
        Ok(())
    }
}

/// Puts the cells behind those that are there, and notes where they begin. Where it fails, nothing has changed.
fn append(cells: &mut Vec<Cell>, starts: &mut Vec<usize>, added: &[Cell]) -> Result<(), NoMemory>
    ensures cells { OnOk result (cells.new.items ≡ cells.old.items ++ added.now) }
    ensures starts { OnOk result (starts.new.items ≡ starts.old.items ++ length cells.old.items ∷ []) }
    ensures err { OnErr result ((cells.new.items ≡ cells.old.items) × (starts.new.items ≡ starts.old.items)) }
{
    let start = cells.len();
    cells.extend_from_slice(added)?;
    match starts.push(start) {
        Ok(()) => Ok(()),
        Err(_) => {
            cells.truncate(start);
            Err(AllocError)
        }
    }
}

/// The cells of the term at a place.
fn term_at<'a>(cells: &'a [Cell], starts: &[usize], index: usize) -> &'a [Cell]
    requires sound { IsTermList cells.now starts.now }
    requires place { index < length starts.now }
    ensures tree { slice_get (list_of (forest cells.now)) index ≡ Some (tree_of result.now) }
    ensures again { cells_of (tree_of result.now) ≡ result.now }
{
    let (_, rest) = cells.split_at(starts[index]);
    split_first(rest).0
}
