//! New names of the attacker in the place of rigid names.
ghost use Rattle.std.specs.Prelude.{◌≡◌, ◌≤◌, ◌<◌, ◌↔◌, IfOk, OnOk, IsTrue, Contains};
ghost use Rattle.dps_terms.specs.Replace.{put_entries, rigid_names_to};
ghost use Rattle.dps_terms.specs.Seen.{seen};
ghost use Rattle.dps_static.specs.Naming.{Adds, AddsRoot, AreNamed, number_of, newly, renamed, AreNew};

use crate::expand::expanded;
use dps_terms::{NoMemory, PublicName, Replacement, Term, TermLeaf, TermRef, TermStack, TermView};
use std::alloc::{AllocError, Global};

/// The attacker's name with this number stands for the rigid name.
#[derive(Clone, Copy)]
pub(crate) struct NewName {
    pub(crate) rigid: u64,
    pub(crate) number: u64,
}

/// The numbers of names that stand in trees: of rigid names, and of the attacker's own.
#[derive(Drop)]
pub(crate) struct Numbers {
    pub(crate) rigid: Vec<u64>,
    pub(crate) own: Vec<u64>,
}

/// Adds the numbers of the tree's names.
fn add_numbers(tree: TermRef<'_>, numbers: &mut Numbers) -> Result<(), NoMemory>
    ensures { OnOk result (Adds numbers.old numbers.new (seen tree.entry)) }
{
    for node in 0..tree.node_count() {
        add_root(tree.subterm(node), numbers)?;
    }
    Ok(())
}

/// Adds the number of the name that the tree is, if it is one.
fn add_root(tree: TermRef<'_>, numbers: &mut Numbers) -> Result<(), NoMemory>
    ensures { OnOk result (AddsRoot numbers.old numbers.new (seen tree.entry)) }
{
    match tree.view() {
        TermView::Rigid(number) => numbers.rigid.push(number)?,
        TermView::Public(PublicName::At(number)) => numbers.own.push(number)?,
        _ => {}
    }
    Ok(())
}

/// Whether the number is among them.
fn is_taken(numbers: &[u64], number: u64) -> bool
    ensures { IsTrue result ↔ Contains numbers.now number }
{
    numbers.contains(&number)
}

/// The first number from this one on that is not taken. It fails where there is none: so many do not fit in memory.
fn free_number(taken: &[u64], from: u64) -> Result<u64, NoMemory>
    ensures later { IfOk result (λ n. from ≤ n) }
    ensures free { IfOk result (λ n. ¬ Contains taken.now n) }
{
    let mut number = from;
    while is_taken(taken, number) {
        if number == u64::MAX {
            return Err(AllocError);
        }
        number += 1;
    }
    Ok(number)
}

/// A new name for each of the rigid ones, with numbers that rise and are not taken.
fn names_for(alloc: Global, rigid: &[u64], taken: &[u64]) -> Result<Vec<NewName>, NoMemory>
    ensures { IfOk result (λ names. AreNamed rigid.now taken.now names.items) }
{
    let mut names = Vec::with_capacity(alloc, rigid.len())?;
    let mut from = 0;
    for one in rigid {
        let number = free_number(taken, from)?;
        names.push(NewName {
            rigid: *one,
            number,
        })?;
        if number == u64::MAX {
            return Err(AllocError);
        }
        from = number + 1;
    }
    Ok(names)
}

/// New names for the rigid names of the two trees, none of which stands in the trees.
pub(crate) fn new_names(
    alloc: Global,
    one: TermRef<'_>,
    other: TermRef<'_>,
) -> Result<Vec<NewName>, NoMemory>
    ensures { IfOk result (λ names. AreNew (number_of names.items) (seen one.entry) (seen other.entry)) }
{
    let mut numbers = Numbers {
        rigid: Vec::new(alloc),
        own: Vec::new(alloc),
    };
    add_numbers(one, &mut numbers)?;
    add_numbers(other, &mut numbers)?;
    let names = names_for(alloc, &numbers.rigid, &numbers.own)?;
    Ok(names)
}

/// The number of the attacker's name that stands for the rigid one, and 0 where there is none.
fn number_of(names: &[NewName], rigid: u64) -> u64
    ensures { result ≡ number_of names.now rigid }
{
    for name in names {
        if name.rigid == rigid {
            return name.number;
        }
    }
    0
}

/// The new names stand for the rigid ones.
#[derive(Clone, Copy)]
struct NewNames<'a> {
    names: &'a [NewName],
}

impl<'a> Replacement for NewNames<'a> {
    ghost becomes = { λ a. rigid_names_to (newly (number_of a.names.now)) };

    fn put(&self, leaf: TermLeaf, stack: &mut TermStack) -> Result<(), NoMemory> {
        match leaf {
            TermLeaf::Rigid(rigid) => {
                let number = number_of(self.names, rigid);
                stack.push_leaf(TermLeaf::Public(PublicName::At(number)))
            }
            other => stack.push_leaf(other),
        }
    }
}

/// The way with the new names for rigid ones and the recipes of kept trees for entries.
pub(crate) fn named_recipe(
    alloc: Global,
    recipes: &[Term],
    names: &[NewName],
    way: TermRef<'_>,
) -> Result<Term, NoMemory>
    ensures { IfOk result (λ t. t ≡ put_entries recipes.now (renamed (number_of names.now) (seen way.entry))) }
{
    let named = way.replaced(alloc, &NewNames { names })?;
    let recipe = expanded(alloc, recipes, named.whole())?;
    Ok(recipe)
}
