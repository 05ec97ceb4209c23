//! Recipes with no entry left in them.
ghost use Rattle.std.specs.Prelude.{◌≡◌, ◌∷◌, [], IfOk, OnOk, unwrap_or};
ghost use Rattle.std.specs.Option.{option_copied};
ghost use Rattle.dps_terms.specs.Replace.{numbered, put_entries};
ghost use Rattle.dps_terms.specs.Tree.{Tree};
ghost use Rattle.dps_terms.specs.Seen.{seen};
ghost use Rattle.dps_know.specs.Know.{resolved_after};

use crate::Entry;
use dps_terms::{NoMemory, Term, TermRef, TermStack, TermView};
use std::alloc::Global;

/// The recipes of the entries, from each of which all entries are gone.
pub(crate) fn resolved(alloc: Global, entries: &[Entry]) -> Result<Vec<Term>, NoMemory>
    ensures { IfOk result (λ v. v.items ≡ resolved_after [] entries.now) }
{
    let mut recipes = Vec::with_capacity(alloc, entries.len())?;
    for entry in entries {
        let recipe = with_recipes(alloc, &recipes, entry.recipe.whole())?;
        recipes.push(recipe)?;
    }
    Ok(recipes)
}

/// The tree with the recipes in the places of its entries.
pub(crate) fn with_recipes(
    alloc: Global,
    recipes: &[Term],
    tree: TermRef<'_>,
) -> Result<Term, NoMemory>
    ensures { IfOk result (λ t. t ≡ put_entries recipes.now (seen tree.entry)) }
{
    let mut stack = TermStack::empty(alloc);
    put_with_recipes(&mut stack, recipes, tree)?;
    Ok(stack.into_term())
}

/// Puts the tree with the recipes in the places of its entries in front.
fn put_with_recipes(
    stack: &mut TermStack,
    recipes: &[Term],
    tree: TermRef<'_>,
) -> Result<(), NoMemory>
    ensures { OnOk result (stack.new ≡ put_entries recipes.now (seen tree.entry) ∷ stack.old) }
{
    match tree.view() {
        TermView::App(sym) => {
            let mut left = tree.arity();
            while left > 0 {
                left -= 1;
                put_with_recipes(stack, recipes, tree.argument(left))?;
            }
            stack.apply(sym, tree.arity())
        }
        TermView::Entry(number) => match entry_of(recipes, number) {
            Some(recipe) => stack.push(recipe.whole()),
            None => stack.push(tree),
        },
        _ => stack.push(tree),
    }
}

/// The recipe of the entry with this number, counted from 1.
fn entry_of(recipes: &[Term], number: u64) -> Option<&Term>
    ensures { (other : Tree) → numbered recipes.now number other ≡ unwrap_or (option_copied result) other }
{
    if number == 0 {
        return None;
    }
    recipes.get(number as usize - 1)
}
