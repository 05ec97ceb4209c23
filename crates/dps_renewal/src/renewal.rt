//! What variables become by bindings whose new variables are numbered anew.
ghost use Rattle.std.specs.Prelude.{◌≡◌, ◌↔◌, ◌++◌, ◌∷◌, [], List, map, ℕ, IfOk, OnOk, IsTrue};
ghost use Rattle.dps_terms.specs.Tree.{Tree, leaf, var};
ghost use Rattle.dps_terms.specs.Seen.{seen};
ghost use Rattle.dps_terms.specs.Bindings.{image};
ghost use Rattle.dps_renewal.specs.Putting.{PutsFor, IsRenewed, renewed as renewed_by};

use crate::bindings::new_variables;
use crate::levels::new_levels;
use crate::numbers::numbers_of;
use dps_terms::{NoMemory, Replacement, Subst, Term, TermLeaf, TermRef, TermStack, TermView};
use indexmap::IndexSet;
use std::alloc::{AllocError, Global};

/// What becomes of some variables.
#[derive(Drop)]
pub struct Renewal {
    /// Their numbers.
    pub own: Vec<u64>,
    /// The new variables, by the numbers that the bindings have for them.
    pub fresh: IndexSet<u64>,
    /// The levels of the new variables.
    pub levels: Vec<u32>,
    /// What is put for all these, with new numbers.
    pub by: Subst,
}

/// What becomes of the variables, which come with their levels, by the bindings. The new variables of the bindings get the
/// numbers from `first` on.
///
/// `Err` comes where memory runs out, or where a number would pass 2^64 - 1.
pub fn renew(
    alloc: Global,
    variables: &[(u64, u32)],
    first: u64,
    bindings: &Subst,
) -> Result<Renewal, NoMemory>
    ensures { IfOk result (λ r. IsRenewed variables.now first (image bindings.now) r) }
{
    let own = numbers_of(alloc, variables)?;
    let fresh = new_variables(alloc, &own, bindings)?;
    let levels = new_levels(alloc, variables, bindings, fresh.as_slice())?;
    let numbers = NewNumbers {
        fresh: &fresh,
        first,
    };
    let mut by = Subst::empty(alloc);
    put_renewed(alloc, &mut by, &own, bindings, &numbers)?;
    put_renewed(alloc, &mut by, fresh.as_slice(), bindings, &numbers)?;
    Ok(Renewal {
        own,
        fresh,
        levels,
        by,
    })
}

/// The numbers of new variables, in their order, from the first on.
#[derive(Clone, Copy)]
struct NewNumbers<'a> {
    fresh: &'a IndexSet<u64>,
    first: u64,
}

impl<'a> Replacement for NewNumbers<'a> {
    ghost use Rattle.dps_terms.specs.Replace.{variables_to};
    ghost use Rattle.dps_renewal.specs.Numbering.{counted_as, as_variable};

    ghost becomes = { λ numbers. variables_to (counted_as as_variable numbers.first numbers.fresh.now.keys) };

    #[tactic(auto, using(crate::proofs::Counted::numbered_at, crate::proofs::Counted::numbered_at_none))]
    fn put(&self, leaf: TermLeaf, stack: &mut TermStack) -> Result<(), NoMemory> {
        let TermLeaf::Var(number) = leaf else {
            return stack.push_leaf(leaf);
        };
        match self.fresh.get_index_of(&number) {
            Some(place) => match self.first.checked_add(place as u64) {
                Some(number) => stack.push_leaf(TermLeaf::Var(number)),
                None => Err(AllocError),
            },
            None => stack.push_leaf(leaf),
        }
    }
}

/// Puts the trees of the variables, with new numbers.
#[tactic(auto, using(crate::proofs::Puts::put_next, crate::proofs::Puts::put_first))]
fn put_renewed(
    alloc: Global,
    by: &mut Subst,
    variables: &[u64],
    bindings: &Subst,
    numbers: &NewNumbers<'_>,
) -> Result<(), NoMemory>
    ensures { (xs : List ℕ) → PutsFor (renewed_by numbers.now.first numbers.now.fresh.now.keys (image bindings.now)) xs by.old → OnOk result (PutsFor (renewed_by numbers.now.first numbers.now.fresh.now.keys (image bindings.now)) (xs ++ variables.now) by.new) }
{
    for variable in variables {
        let tree = renewed(alloc, *variable, bindings, numbers)?;
        put(by, *variable, tree)?;
    }
    Ok(())
}

/// The tree of the variable, with new numbers.
fn renewed(
    alloc: Global,
    variable: u64,
    bindings: &Subst,
    numbers: &NewNumbers<'_>,
) -> Result<Term, NoMemory>
    ensures { IfOk result (λ t. t ≡ renewed_by numbers.now.first numbers.now.fresh.now.keys (image bindings.now) variable) }
{
    match bindings.get(variable) {
        Some(tree) => tree.whole().replaced(alloc, numbers),
        None => {
            let itself = Term::var(alloc, variable)?;
            itself.whole().replaced(alloc, numbers)
        }
    }
}

/// Puts the tree for the variable, where it is another one, unless something is put for it already.
///
/// `Err` comes where memory runs out.
#[tactic(auto, using(crate::proofs::Puts::put_kept, crate::proofs::Puts::put_more, crate::proofs::Puts::put_before))]
pub fn put(by: &mut Subst, variable: u64, tree: Term) -> Result<(), NoMemory>
    ensures { (z : ℕ → Tree) (xs : List ℕ) → tree ≡ z variable → PutsFor z xs by.old → OnOk result (PutsFor z (xs ++ variable ∷ []) by.new) }
{
    if is_variable(tree.whole(), variable) {
        return Ok(());
    }
    if by.get(variable).is_none() {
        by.bind(variable, tree)?;
    }
    Ok(())
}

/// Whether the tree is the variable.
pub fn is_variable(tree: TermRef<'_>, variable: u64) -> bool
    ensures { IsTrue result ↔ (seen tree.entry ≡ leaf (var variable)) }
{
    match tree.view() {
        TermView::Var(number) => number == variable,
        _ => false,
    }
}
