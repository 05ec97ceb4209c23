//! The ways to use a rule that choose a new kept tree: one at a place from `asked` on.
//!
//! The *pivot* is the first argument of a pattern in which a new tree is chosen. So the arguments before it are made of the
//! old trees, and those behind it of all.
ghost use Rattle.std.specs.Prelude.{◌<◌, ◌≤◌, IfOk, All, length};
ghost use Rattle.dps_terms.specs.Variables.{variables};
ghost use Rattle.dps_terms.specs.Views.{arguments};
ghost use Rattle.dps_terms.specs.Seen.{seen};
ghost use Rattle.dps_static.specs.Binding.{BindsParts, HasFreeVariables};
ghost use Rattle.dps_static.specs.Cuts.{CoversAround, CoversNew, CoversNewArguments, CoversNewLeft};

use crate::cover::{cover_arguments, entries};
use crate::kept::Kept;
use dps_terms::{NoMemory, Subst, Term, TermRef, TermView};
use std::alloc::Global;

/// The substitutions extended so that they settle the arguments of the pattern beside the pivot.
fn cover_around(
    alloc: Global,
    kept: &Kept,
    asked: usize,
    free: &[u64],
    pattern: TermRef<'_>,
    pivot: u32,
    start: Vec<Subst>,
) -> Result<Vec<Subst>, NoMemory>
    requires within { asked ≤ length kept.now }
    requires pivot { pivot < length (arguments (seen pattern)) }
    requires free { HasFreeVariables free.now (seen pattern) }
    requires parts { All (BindsParts kept.now free.now) start.items }
    ensures covers { IfOk result (λ found. CoversAround kept.now asked (arguments (seen pattern.entry)) pivot start.items found.items) }
    ensures parts { IfOk result (λ found. All (BindsParts kept.now free.now) found.items) }
{
    // Where the pivot chooses no new tree, nothing is left to settle.
    if start.is_empty() {
        return Ok(start);
    }
    let before = cover_arguments(alloc, kept, asked, free, pattern, 0, pivot, start)?;
    let arity = pattern.arity();
    let whole = cover_arguments(
        alloc,
        kept,
        kept.len(),
        free,
        pattern,
        pivot + 1,
        arity,
        before,
    )?;
    Ok(whole)
}

/// The substitutions extended so that they settle the pattern, in all ways that matter and choose a new tree.
#[cycle(pivot)]
fn with_new(
    alloc: Global,
    kept: &Kept,
    asked: usize,
    free: &[u64],
    pattern: TermRef<'_>,
    start: &[Subst],
) -> Result<Vec<Subst>, NoMemory>
    requires within { asked ≤ length kept.now }
    requires free { HasFreeVariables free.now (seen pattern) }
    requires parts { All (BindsParts kept.now free.now) start.now }
    ensures covers { IfOk result (λ found. CoversNew kept.now asked (seen pattern.entry) start.now found.items) }
    ensures parts { IfOk result (λ found. All (BindsParts kept.now free.now) found.items) }
{
    match pattern.view() {
        TermView::App(_) => {
            let mut found = entries(alloc, kept, asked, kept.len(), free, pattern, start)?;
            let mut below = with_new_below(alloc, kept, asked, free, pattern, start)?;
            found.append(&mut below)?;
            Ok(found)
        }
        _ => Ok(Vec::new(alloc)),
    }
}

/// The same for the arguments of the pattern.
#[cycle(pivot)]
fn with_new_below(
    alloc: Global,
    kept: &Kept,
    asked: usize,
    free: &[u64],
    pattern: TermRef<'_>,
    start: &[Subst],
) -> Result<Vec<Subst>, NoMemory>
    requires within { asked ≤ length kept.now }
    requires free { HasFreeVariables free.now (seen pattern) }
    requires parts { All (BindsParts kept.now free.now) start.now }
    ensures covers { IfOk result (λ found. CoversNewArguments kept.now asked (arguments (seen pattern.entry)) start.now found.items) }
    ensures parts { IfOk result (λ found. All (BindsParts kept.now free.now) found.items) }
{
    let mut found = Vec::new(alloc);
    for pivot in 0..pattern.arity() {
        let by_pivot = with_new(alloc, kept, asked, free, pattern.argument(pivot), start)?;
        let mut whole = cover_around(alloc, kept, asked, free, pattern, pivot, by_pivot)?;
        found.append(&mut whole)?;
    }
    Ok(found)
}

/// The ways to use a rule that choose a new tree: substitutions that bind variables of the left side to parts of kept
/// trees, and of which one settles the arguments of the left side wherever these are built and not of old trees alone.
pub(crate) fn new_ways(
    alloc: Global,
    kept: &Kept,
    asked: usize,
    left: &Term,
) -> Result<Vec<Subst>, NoMemory>
    requires { asked ≤ length kept.now }
    ensures covers { IfOk result (λ found. CoversNewLeft kept.now asked left.now found.items) }
    ensures parts { IfOk result (λ found. All (BindsParts kept.now (variables left.now)) found.items) }
{
    let free = left.vars(alloc)?;
    let mut start = Vec::new(alloc);
    start.push(Subst::empty(alloc))?;
    let found = with_new_below(alloc, kept, asked, &free, left.whole(), &start)?;
    Ok(found)
}
