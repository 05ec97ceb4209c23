//! Values of entries, and what variables stand for in values.
ghost use Rattle.std.specs.Prelude.{◌≡◌, ◌++◌, ◌∷◌, [], ℕ, List, map, unwrap_or, IfOk, OnOk};
ghost use Rattle.std.specs.Option.{option_copied};
ghost use Rattle.dps_terms.specs.Tree.{Tree};
ghost use Rattle.dps_terms.specs.Bindings.{image};
ghost use Rattle.dps_terms.specs.Replace.{substitute, numbered, put_entries};
ghost use Rattle.dps_solver.specs.Solutions.{valued as valued_of};
ghost use Rattle.dps_node.specs.Splits.{HasOlderEntries};
ghost use Rattle.dps_renewal.specs.Putting.{PutsFor};

use dps_renewal::put;
use dps_terms::{NoMemory, Replacement, Subst, Term, TermLeaf, TermStack};
use std::alloc::Global;

/// The values of the entries, with the values of what is put for their variables, which are computed from themselves: each
/// needs those before it alone.
#[tactic(auto, using(crate::proofs::Valuing::next_value))]
pub(crate) fn values_under(
    alloc: Global,
    values: &[Term],
    by: &Subst,
) -> Result<Vec<Term>, NoMemory>
    requires { HasOlderEntries (image by.now) values.now }
    ensures { IfOk result (λ v. v.items ≡ map (substitute (valued_of v.items (image by.now))) values.now) }
{
    let mut made = Vec::with_capacity(alloc, values.len())?;
    for value in values {
        let one = valued_term(alloc, value, by, &made)?;
        made.push(one)?;
    }
    Ok(made)
}

/// The value with what is put for its variables, by the values of entries.
fn valued_term(alloc: Global, value: &Term, by: &Subst, values: &[Term]) -> Result<Term, NoMemory>
    ensures { IfOk result (λ t. t ≡ substitute (valued_of values.now (image by.now)) value.now) }
{
    let valued = Valued { alloc, by, values };
    value.whole().replaced(alloc, &valued)
}

/// What is put for variables, as a value.
#[derive(Clone, Copy)]
struct Valued<'a> {
    alloc: Global,
    by: &'a Subst,
    values: &'a [Term],
}

impl<'a> Replacement for Valued<'a> {
    ghost use Rattle.dps_terms.specs.Bindings.{image};
    ghost use Rattle.dps_terms.specs.Replace.{variables_to};
    ghost use Rattle.dps_solver.specs.Solutions.{valued};

    ghost becomes = { λ a. variables_to (valued a.values.now (image a.by.now)) };

    fn put(&self, leaf: TermLeaf, stack: &mut TermStack) -> Result<(), NoMemory> {
        let TermLeaf::Var(number) = leaf else {
            return stack.push_leaf(leaf);
        };
        match self.by.get(number) {
            Some(tree) => {
                let value = value_of(self.alloc, tree, self.values)?;
                stack.push(value.whole())
            }
            None => stack.push_leaf(leaf),
        }
    }
}

/// The value of the tree, where the entries have these values.
pub(crate) fn value_of(alloc: Global, tree: &Term, values: &[Term]) -> Result<Term, NoMemory>
    ensures { IfOk result (λ t. t ≡ put_entries values.now tree.now) }
{
    tree.whole().replaced(alloc, &Entries { values })
}

/// Values in the place of entries.
#[derive(Clone, Copy)]
struct Entries<'a> {
    values: &'a [Term],
}

impl<'a> Replacement for Entries<'a> {
    ghost use Rattle.dps_terms.specs.Replace.{entries_to};

    ghost becomes = { λ a. entries_to a.values.now };

    fn put(&self, leaf: TermLeaf, stack: &mut TermStack) -> Result<(), NoMemory> {
        let TermLeaf::Entry(number) = leaf else {
            return stack.push_leaf(leaf);
        };
        match entry_value(self.values, number) {
            Some(value) => stack.push(value.whole()),
            None => stack.push_leaf(leaf),
        }
    }
}

/// The value of the entry with this number, counted from 1.
fn entry_value(values: &[Term], number: u64) -> Option<&Term>
    ensures { (other : Tree) → numbered values.now number other ≡ unwrap_or (option_copied result) other }
{
    if number == 0 {
        return None;
    }
    values.get(number as usize - 1)
}

/// Puts the values of the variables' trees.
#[tactic(auto, using(dps_renewal::proofs::Puts::put_next, dps_renewal::proofs::Puts::put_first))]
pub(crate) fn put_values(
    alloc: Global,
    valued: &mut Subst,
    variables: &[u64],
    by: &Subst,
    values: &[Term],
) -> Result<(), NoMemory>
    ensures { (xs : List ℕ) → PutsFor (valued_of values.now (image by.now)) xs valued.old → OnOk result (PutsFor (valued_of values.now (image by.now)) (xs ++ variables.now) valued.new) }
{
    for variable in variables {
        put_value(alloc, valued, *variable, by, values)?;
    }
    Ok(())
}

/// Puts the value of the variable's tree.
fn put_value(
    alloc: Global,
    valued: &mut Subst,
    variable: u64,
    by: &Subst,
    values: &[Term],
) -> Result<(), NoMemory>
    ensures { (xs : List ℕ) → PutsFor (valued_of values.now (image by.now)) xs valued.old → OnOk result (PutsFor (valued_of values.now (image by.now)) (xs ++ variable ∷ []) valued.new) }
{
    match by.get(variable) {
        Some(tree) => {
            let value = value_of(alloc, tree, values)?;
            put(valued, variable, value)
        }
        None => Ok(()),
    }
}
