//! The substitutions by which kept trees make a pattern. An *entry* is a kept tree that stands for a part of the pattern.
ghost use Rattle.std.specs.Prelude.{◌≡◌, ◌≤◌, ◌↔◌, IfOk, IsTrue, All, length};
ghost use Rattle.dps_terms.specs.Views.{view_of, arguments};
ghost use Rattle.dps_terms.specs.Seen.{seen};
ghost use Rattle.dps_static.specs.Binding.{AreMatches, BindsParts, HasFreeVariables, IsRooted};
ghost use Rattle.dps_static.specs.Cuts.{Covers, CoversArguments, CoversEntries};

use crate::kept::Kept;
use dps_terms::{NoMemory, Subst, TermRef, TermView};
use dps_unify::extend_match;
use std::alloc::Global;

/// Whether the same stands at both roots.
fn same_root(pattern: TermRef<'_>, tree: TermRef<'_>) -> bool
    ensures { IsTrue result ↔ (view_of (seen pattern.entry) ≡ view_of (seen tree.entry)) }
{
    pattern.view() == tree.view()
}

/// The substitutions extended so that the pattern, a symbol over terms, becomes the tree, in all ways.
fn matches(
    alloc: Global,
    free: &[u64],
    pattern: TermRef<'_>,
    start: &[Subst],
    tree: TermRef<'_>,
) -> Result<Vec<Subst>, NoMemory>
    requires { IsRooted (seen pattern) }
    ensures { IfOk result (λ found. AreMatches free.now (seen pattern.entry) (seen tree.entry) start.now found.items) }
{
    let mut found = Vec::new(alloc);
    // Most kept trees differ at the root.
    if !same_root(pattern, tree) {
        return Ok(found);
    }
    for by in start {
        let mut more = by.copy(alloc)?;
        if extend_match(alloc, &mut more, free, pattern, tree)? {
            found.push(more)?;
        }
    }
    Ok(found)
}

/// The substitutions extended so that the pattern becomes one of the kept trees at the places `from..to`, in all ways.
pub(crate) fn entries(
    alloc: Global,
    kept: &Kept,
    from: usize,
    to: usize,
    free: &[u64],
    pattern: TermRef<'_>,
    start: &[Subst],
) -> Result<Vec<Subst>, NoMemory>
    requires within { to ≤ length kept.now }
    requires rooted { IsRooted (seen pattern) }
    requires free { HasFreeVariables free.now (seen pattern) }
    requires parts { All (BindsParts kept.now free.now) start.now }
    ensures covers { IfOk result (λ found. CoversEntries kept.now from to (seen pattern.entry) start.now found.items) }
    ensures parts { IfOk result (λ found. All (BindsParts kept.now free.now) found.items) }
{
    let mut found = Vec::new(alloc);
    for place in from..to {
        let mut here = matches(alloc, free, pattern, start, kept.get(place))?;
        found.append(&mut here)?;
    }
    Ok(found)
}

/// The substitutions extended so that they settle the pattern, in all ways that matter with entries of the first `to` kept
/// trees.
#[cycle(cover)]
fn cover(
    alloc: Global,
    kept: &Kept,
    to: usize,
    free: &[u64],
    pattern: TermRef<'_>,
    start: Vec<Subst>,
) -> Result<Vec<Subst>, NoMemory>
    requires within { to ≤ length kept.now }
    requires free { HasFreeVariables free.now (seen pattern) }
    requires parts { All (BindsParts kept.now free.now) start.items }
    ensures covers { IfOk result (λ found. Covers kept.now to (seen pattern.entry) start.items found.items) }
    ensures parts { IfOk result (λ found. All (BindsParts kept.now free.now) found.items) }
{
    match pattern.view() {
        TermView::App(_) => {
            let mut found = entries(alloc, kept, 0, to, free, pattern, &start)?;
            let arity = pattern.arity();
            let mut rest = cover_arguments(alloc, kept, to, free, pattern, 0, arity, start)?;
            found.append(&mut rest)?;
            Ok(found)
        }
        _ => Ok(start),
    }
}

/// The same for the arguments `first..last` of the pattern.
#[cycle(cover)]
pub(crate) fn cover_arguments(
    alloc: Global,
    kept: &Kept,
    to: usize,
    free: &[u64],
    pattern: TermRef<'_>,
    first: u32,
    last: u32,
    start: Vec<Subst>,
) -> Result<Vec<Subst>, NoMemory>
    requires within { to ≤ length kept.now }
    requires range { first ≤ last }
    requires last { last ≤ length (arguments (seen pattern)) }
    requires free { HasFreeVariables free.now (seen pattern) }
    requires parts { All (BindsParts kept.now free.now) start.items }
    ensures covers { IfOk result (λ found. CoversArguments kept.now to (arguments (seen pattern.entry)) first last start.items found.items) }
    ensures parts { IfOk result (λ found. All (BindsParts kept.now free.now) found.items) }
{
    let mut found = start;
    for index in first..last {
        found = cover(alloc, kept, to, free, pattern.argument(index), found)?;
    }
    Ok(found)
}
