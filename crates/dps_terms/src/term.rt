//! Terms: how they are made, copied, compared, measured and changed.
ghost use Rattle.std.specs.Prelude.{◌≡◌, ◌≤◌, ◌+◌, ◌-◌, ◌^◌, ◌↔◌, ◌++◌, ℕ, true, nat_eq, vec_len, min, IfOk, OnOk, IfSome, IsTrue, IsOk, length};
ghost use Rattle.indexmap.specs.IndexSet.{insert_all};
ghost use Rattle.dps_terms.specs.Tree.{public, private, var, ax, entry, rigid, leaf, app, trees, node_count, node_counts};
ghost use Rattle.dps_terms.specs.Replace.{substitute};
ghost use Rattle.dps_terms.specs.Variables.{variables};
ghost use Rattle.dps_terms.specs.Bindings.{image};
ghost use Rattle.dps_terms.specs.Cells.{all_cells, are_narrow, variables_in};

use crate::cells::Cell;
use crate::{NoMemory, PublicName, Subst, Sym};
use indexmap::IndexSet;
use smallvec::SmallVec;
use std::alloc::{AllocError, Global};
use std::marker::Model;

/// A term: a symbol over at most eight terms, or a leaf.
///
/// It is one list of cells, of which eight lie in the term itself.
#[derive(Drop)]
pub struct Term {
    pub(crate) cells: SmallVec<Cell, 8>,
}

impl Model for Term {
    ghost use Rattle.dps_terms.specs.Tree.{Tree};
    ghost use Rattle.dps_terms.specs.Stored.{tree_code};

    ghost Value = { Tree };

    ghost coded = { tree_code };

    ghost use Rattle.dps_terms.specs.Cells.{tree_of, IsTerm};

    ghost view = { λ a. tree_of a.cells.items };

    ghost invariant = { λ a. IsTerm a.cells.items };
}

/// The makers. Each fails for want of memory alone.
impl Term {
    ghost use Rattle.dps_terms.specs.Cells.{leaf_of, IsLeafCell, cells_of, all_cells, is_narrow, AreTerms};

    /// The symbol over the arguments, of which there are at most eight.
    pub fn app(alloc: Global, sym: Sym, arguments: Vec<Term>) -> Result<Term, NoMemory>
        requires { vec_len arguments ≤ 8 }
        ensures { IfOk result (λ t. t ≡ app sym (trees arguments.items)) }
    {
        let Some(width) = width_over(&arguments) else {
            return Err(AllocError);
        };
        let mut cells = SmallVec::with_capacity(alloc, width as usize)?;
        cells.push(Cell::App(sym, arguments.len() as u32, width))?;
        put_all(&mut cells, &arguments)?;
        Ok(Term { cells })
    }

    /// A name that the attacker has.
    pub fn public(alloc: Global, name: PublicName) -> Result<Term, NoMemory>
        ensures { IfOk result (λ t. t ≡ leaf (public name)) }
    {
        Term::leaf(
            alloc,
            match name {
                PublicName::Declared(number) => Cell::Declared(number),
                PublicName::At(number) => Cell::At(number)
            },
        )
    }

    /// A name that is not the attacker's from the start.
    pub fn private(alloc: Global, number: u64) -> Result<Term, NoMemory>
        ensures { IfOk result (λ t. t ≡ leaf (private number)) }
    {
        Term::leaf(alloc, Cell::Private(number))
    }

    /// A variable.
    pub fn var(alloc: Global, number: u64) -> Result<Term, NoMemory>
        ensures { IfOk result (λ t. t ≡ leaf (var number)) }
    {
        Term::leaf(alloc, Cell::Var(number))
    }

    /// The handle of a frame's message, counted from 1.
    pub fn ax(alloc: Global, number: u32) -> Result<Term, NoMemory>
        ensures { IfOk result (λ t. t ≡ leaf (ax number)) }
    {
        Term::leaf(alloc, Cell::Ax(number))
    }

    /// An entry of the attacker's knowledge, counted from 1.
    pub fn entry(alloc: Global, number: u64) -> Result<Term, NoMemory>
        ensures { IfOk result (λ t. t ≡ leaf (entry number)) }
    {
        Term::leaf(alloc, Cell::Entry(number))
    }

    /// A name that stands for whatever the attacker may put in its place.
    pub fn rigid(alloc: Global, number: u64) -> Result<Term, NoMemory>
        ensures { IfOk result (λ t. t ≡ leaf (rigid number)) }
    {
        Term::leaf(alloc, Cell::Rigid(number))
    }

    #[tactic(auto, using(crate::proofs::Preorder::single))]
    fn leaf(alloc: Global, cell: Cell) -> Result<Term, NoMemory>
        requires { IsLeafCell cell }
        ensures { IfOk result (λ t. t ≡ leaf (leaf_of cell)) }
    {
        let mut cells = SmallVec::new(alloc);
        cells.push(cell)?;
        Ok(Term { cells })
    }

    /// The cells, in preorder.
    #[tactic(auto, using(crate::proofs::Preorder::kept))]
    pub(crate) fn as_cells(&self) -> &[Cell]
        ensures cells { result.now ≡ cells_of self.now }
        ensures narrow { is_narrow self.now ≡ true }
    {
        self.cells.as_slice()
    }
}

/// The number of cells of a symbol over the terms, where that is below 2^32.
#[tactic(auto, using(crate::proofs::Finding::node_counts_drop, crate::proofs::Finding::node_counts_done))]
fn width_over(arguments: &[Term]) -> Option<u32>
    ensures { IfSome result (λ width. width ≡ 1 + node_counts (trees arguments.now)) }
{
    let mut width: u32 = 1;
    for argument in arguments {
        let Ok(count) = u32::try_from(argument.as_cells().len()) else {
            return None;
        };
        let Some(sum) = width.checked_add(count) else {
            return None;
        };
        width = sum;
    }
    Some(width)
}

/// Puts the cells of the terms behind those that are there.
#[tactic(auto, using(crate::proofs::Preorder::put_more, crate::proofs::Preorder::put_done))]
fn put_all(cells: &mut SmallVec<Cell, 8>, arguments: &[Term]) -> Result<(), NoMemory>
    ensures cells { OnOk result (cells.new.items ≡ cells.old.items ++ all_cells (trees arguments.now)) }
    ensures narrow { IfOk result (λ _. are_narrow (trees arguments.now) ≡ true) }
{
    for argument in arguments {
        cells.extend_from_slice(argument.as_cells())?;
    }
    Ok(())
}

impl Term {
    ghost use Rattle.dps_terms.specs.Cells.{tree_of, IsTerm};

    /// The same tree, in memory of its own. A term of at most eight nodes needs none.
    pub fn copy(&self, alloc: Global) -> Result<Term, NoMemory>
        ensures same { IfOk result (λ t. t ≡ self.now) }
        ensures small { node_count self.now ≤ 8 → IsOk result }
    {
        Term::of_cells(alloc, self.as_cells())
    }

    /// The term of these cells.
    #[tactic(auto, using(crate::proofs::Preorder::kept))]
    pub(crate) fn of_cells(alloc: Global, cells: &[Cell]) -> Result<Term, NoMemory>
        requires { IsTerm cells.now }
        ensures same { IfOk result (λ t. t ≡ tree_of cells.now) }
        ensures small { node_count (tree_of cells.now) ≤ 8 → IsOk result }
    {
        let cells = SmallVec::from_slice(alloc, cells)?;
        Ok(Term { cells })
    }

    /// The number of nodes, leaves and symbols, or 2^64 - 1 where there are more.
    pub fn size(&self) -> u64
        ensures { result ≡ min (node_count self.now) (2 ^ 64 - 1) }
    {
        self.whole().root().width() as u64
    }

    /// The variables, each once, by first occurrence from left to right.
    #[tactic(auto, using(crate::proofs::Finding::found_once, crate::proofs::Preorder::variables_of_cells))]
    pub fn vars(&self, alloc: Global) -> Result<Vec<u64>, NoMemory>
        ensures { IfOk result (λ v. v.items ≡ variables self.now) }
    {
        let mut found = IndexSet::new(alloc);
        add_vars(self.as_cells(), &mut found)?;
        found.as_slice().to_vec(alloc)
    }

    /// The tree with what `by` binds in the place of the variables. A variable that is not bound stays.
    pub fn subst(&self, alloc: Global, by: &Subst) -> Result<Term, NoMemory>
        ensures { IfOk result (λ t. t ≡ substitute (image by.now) self.now) }
    {
        self.whole().replaced(alloc, by)
    }

    /// Whether the two are the same tree.
    #[tactic(auto, using(crate::proofs::Preorder::kept))]
    pub fn equals(&self, other: &Term) -> bool
        ensures { IsTrue result ↔ (self.now ≡ other.now) }
    {
        self.as_cells() == other.as_cells()
    }
}

/// Adds the variables of the cells to those that were found already.
#[tactic(auto, using(crate::proofs::Preorder::found_next, crate::proofs::Preorder::found_all))]
fn add_vars(cells: &[Cell], found: &mut IndexSet<u64>) -> Result<(), NoMemory>
    ensures { OnOk result (found.new.keys ≡ insert_all nat_eq found.old.keys (variables_in cells.now)) }
{
    for cell in cells {
        if let Cell::Var(number) = cell {
            found.insert(*number)?;
        }
    }
    Ok(())
}

impl PartialEq for Term {
    ghost use Rattle.std.specs.Cmp.{partial_equiv_from_equiv};
    ghost use Rattle.dps_terms.specs.Same.{same, same_laws};

    ghost eq = { same };

    ghost laws = { partial_equiv_from_equiv same_laws };

    #[tactic(auto, using(crate::specs::Same::same_decides))]
    fn eq(&self, other: &Term) -> bool {
        self.equals(other)
    }
}

impl Eq for Term {
    ghost use Rattle.dps_terms.specs.Same.{same_laws};

    ghost laws = { same_laws };
}
