//! Ways to build a tree from kept ones. A rigid name stands for itself.
ghost use Rattle.std.specs.Prelude.{◌≡◌, ◌+◌, ◌<◌, ◌^◌, ◌↔◌, IsTrue, List, length, reverse, suc, IfOk, MatchBool, MatchOption, unwrap_or};
ghost use Rattle.std.specs.Option.{option_copied};
ghost use Rattle.dps_terms.specs.Tree.{Tree, leaf, entry, node_count};
ghost use Rattle.dps_terms.specs.Replace.{numbered, put_entries};
ghost use Rattle.dps_terms.specs.Seen.{seen};
ghost use Rattle.dps_static.specs.Ways.{Builds, Composes, IsNotBuilt, IsNotComposed};
ghost use Rattle.dps_static.specs.Steps.{CanTake, AreTaken, HasNoWay, Leads};

use crate::expand::expanded;
use crate::kept::Kept;
use dps_terms::{NoMemory, Sym, Term, TermLeaf, TermRef, TermStack, TermView};
use smallvec::SmallVec;
use std::alloc::{AllocError, Global};

/// The entry of a place that is counted from 0.
pub(crate) fn entry_at(alloc: Global, place: usize) -> Result<Term, NoMemory>
    requires { place + 1 < 2 ^ 64 }
    ensures { IfOk result (λ t. t ≡ leaf (entry (suc place))) }
{
    let entry = Term::entry(alloc, place as u64 + 1)?;
    Ok(entry)
}

/// What is left to do for a way.
#[derive(Clone, Copy)]
pub(crate) enum Step<'a> {
    /// Put a way that builds the tree in front.
    Build(TermRef<'a>),
    /// Put the symbol over so many ways from the front in their place.
    Apply(Sym, u32),
}

// what the unused places of a list of steps hold
impl<'a> Default for Step<'a> {
    fn default() -> Step<'a> {
        Step::Apply(Sym { number: 0 }, 0)
    }
}

/// A way to build the tree, and `None` exactly where there is none.
pub(crate) fn way(alloc: Global, kept: &Kept, tree: TermRef<'_>) -> Result<Option<Term>, NoMemory>
    ensures { IfOk result (λ o. MatchOption o (IsNotBuilt kept.now (seen tree.entry)) (Builds kept.now (seen tree.entry))) }
{
    let mut steps = SmallVec::new(alloc);
    let mut stack = TermStack::empty(alloc);
    if !put_way(kept, tree, &mut steps, &mut stack)? {
        return Ok(None);
    }
    if !take_steps(kept, &mut steps, &mut stack)? {
        return Ok(None);
    }
    Ok(Some(stack.into_term()))
}

/// A way to build the tree that is more than an entry alone, and `None` exactly where there is none.
pub(crate) fn composed(
    alloc: Global,
    kept: &Kept,
    tree: TermRef<'_>,
) -> Result<Option<Term>, NoMemory>
    ensures { IfOk result (λ o. MatchOption o (IsNotComposed kept.now (seen tree.entry)) (Composes kept.now (seen tree.entry))) }
{
    let mut steps = SmallVec::new(alloc);
    let mut stack = TermStack::empty(alloc);
    if !put_composed(tree, &mut steps, &mut stack)? {
        return Ok(None);
    }
    if !take_steps(kept, &mut steps, &mut stack)? {
        return Ok(None);
    }
    Ok(Some(stack.into_term()))
}

/// Takes the steps, the last one first. Says `false` where one of their trees is built in no way.
fn take_steps(
    kept: &Kept,
    steps: &mut SmallVec<Step<'_>, 8>,
    stack: &mut TermStack,
) -> Result<bool, NoMemory>
    requires { CanTake (reverse steps.old.items) (length stack.old) }
    ensures { IfOk result (λ all. MatchBool all (AreTaken kept.now (reverse steps.old.items) stack.old stack.new) (HasNoWay kept.now (reverse steps.old.items))) }
{
    while let Some(step) = steps.pop() {
        match step {
            Step::Build(tree) => {
                if !put_way(kept, tree, steps, stack)? {
                    return Ok(false);
                }
            }
            Step::Apply(sym, arity) => stack.apply(sym, arity)?,
        }
    }
    Ok(true)
}

/// Puts a way to build the tree in front, or behind the steps those that put it there. Says `false` where there is none.
fn put_way<'a>(
    kept: &Kept,
    tree: TermRef<'a>,
    steps: &mut SmallVec<Step<'a>, 8>,
    stack: &mut TermStack,
) -> Result<bool, NoMemory>
    ensures { IfOk result (λ found. MatchBool found
        (Leads (Builds kept.now (seen tree.entry)) kept.now (node_count (seen tree.entry)) steps.old.items stack.old steps.new.items stack.new)
        (IsNotBuilt kept.now (seen tree.entry))) }
{
    // A public name needs no look-up.
    if let TermView::Public(_) = tree.view() {
        stack.push(tree)?;
        return Ok(true);
    }
    match kept.place(tree) {
        Some(place) => {
            stack.push_leaf(TermLeaf::Entry(place as u64 + 1))?;
            Ok(true)
        }
        None => {
            let found = put_composed(tree, steps, stack)?;
            Ok(found)
        }
    }
}

/// The same for a way that is more than an entry alone.
fn put_composed<'a>(
    tree: TermRef<'a>,
    steps: &mut SmallVec<Step<'a>, 8>,
    stack: &mut TermStack,
) -> Result<bool, NoMemory>
    ensures { (kept : List Tree) → IfOk result (λ found. MatchBool found
        (Leads (Composes kept (seen tree.entry)) kept (node_count (seen tree.entry)) steps.old.items stack.old steps.new.items stack.new)
        (IsNotComposed kept (seen tree.entry))) }
{
    match tree.view() {
        TermView::App(sym) => {
            steps.push(Step::Apply(sym, tree.arity()))?;
            for index in 0..tree.arity() {
                steps.push(Step::Build(tree.argument(index)))?;
            }
            Ok(true)
        }
        TermView::Public(_) | TermView::Rigid(_) => {
            stack.push(tree)?;
            Ok(true)
        }
        _ => Ok(false),
    }
}

/// The tree of an entry, counted from 1, and `None` exactly where there is no such entry.
pub(crate) fn entry_of(kept: &[Term], number: u64) -> Option<&Term>
    ensures { (other : Tree) → numbered kept.now number other ≡ unwrap_or (option_copied result) other }
{
    if number == 0 {
        return None;
    }
    kept.get(number as usize - 1)
}

/// Whether the way builds the tree.
pub(crate) fn builds(
    alloc: Global,
    kept: &[Term],
    way: TermRef<'_>,
    tree: TermRef<'_>,
) -> Result<bool, NoMemory>
    ensures { IfOk result (λ same. IsTrue same ↔ (put_entries kept.now (seen way.entry) ≡ seen tree.entry)) }
{
    let built = expanded(alloc, kept, way)?;
    Ok(built.whole().equals(tree))
}
