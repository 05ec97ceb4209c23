//! Ways over recipes, and tests made of them.
ghost use Rattle.std.specs.Prelude.{◌≡◌, IfOk};
ghost use Rattle.dps_terms.specs.Replace.{entries_to, put_entries};
ghost use Rattle.dps_terms.specs.Seen.{seen};
ghost use Rattle.dps_static.specs.Handles.{handles, equality};

use crate::Test;
use crate::build::entry_of;
use crate::follow::TwoWays;
use dps_terms::{NoMemory, Replacement, Term, TermLeaf, TermRef, TermStack};
use std::alloc::Global;

/// The recipes of a frame's messages: `ax1`, `ax2` and so on.
pub(crate) fn handles(alloc: Global, count: u32) -> Result<Vec<Term>, NoMemory>
    ensures { IfOk result (λ v. v.items ≡ handles count) }
{
    let mut recipes = Vec::with_capacity(alloc, count as usize)?;
    for i in 0..count {
        let handle = Term::ax(alloc, i + 1)?;
        recipes.push(handle)?;
    }
    Ok(recipes)
}

/// The trees stand for their entries, counted from 1.
#[derive(Clone, Copy)]
struct Entries<'a> {
    trees: &'a [Term],
}

impl<'a> Replacement for Entries<'a> {
    ghost becomes = { λ a. entries_to a.trees.now };

    fn put(&self, leaf: TermLeaf, stack: &mut TermStack) -> Result<(), NoMemory> {
        match leaf {
            TermLeaf::Entry(number) => match entry_of(self.trees, number) {
                Some(tree) => stack.push(tree.whole()),
                None => stack.push_leaf(leaf),
            },
            other => stack.push_leaf(other),
        }
    }
}

/// The way with the recipes of kept trees for their entries.
pub(crate) fn expanded(alloc: Global, recipes: &[Term], way: TermRef<'_>) -> Result<Term, NoMemory>
    ensures { IfOk result (λ t. t ≡ put_entries recipes.now (seen way.entry)) }
{
    way.replaced(alloc, &Entries { trees: recipes })
}

/// Whether the recipes that the two ways make of the kept ones have one value.
pub(crate) fn question(alloc: Global, recipes: &[Term], ways: &TwoWays) -> Result<Test, NoMemory>
    ensures { IfOk result (λ t. t ≡ equality recipes.now ways.now) }
{
    let one = expanded(alloc, recipes, ways.one.whole())?;
    let other = expanded(alloc, recipes, ways.other.whole())?;
    Ok(Test::Equal(one, other))
}
