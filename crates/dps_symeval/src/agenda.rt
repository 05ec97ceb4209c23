//! The choices of rules for terms, by a list of what is still to be done.
ghost use Rattle.std.specs.Prelude.{◌≡◌, ◌<◌, ◌≤◌, ◌+◌, ◌*◌, ◌∷◌, [], reverse, map, IfOk, OnOk, All, MatchBool};
ghost use Rattle.std.specs.List.{flat_map};
ghost use Rattle.dps_terms.specs.Tree.{node_count};
ghost use Rattle.dps_terms.specs.Seen.{seen};
ghost use Rattle.dps_symeval.specs.Cases.{is_destructor as computes};
ghost use Rattle.dps_symeval.specs.Agenda.{AreOpen, IsOpen, IsThinned, no_terms, all_done, weight, weights, GoesOn, IsBegun, with_result, root_applied, applied_last, constructed_last, IsFree, IsRootFree};

use crate::choices::Choices;
use crate::narrowing::narrowed;
use dps_signature::SymKind;
use dps_terms::{NoMemory, Sym, TermRef, TermView};
use dps_theory::Theory;
use std::alloc::Global;

/// What is still to be done.
#[derive(Clone, Copy)]
pub(crate) enum Task<'a> {
    /// The term is evaluated.
    Evaluate(TermRef<'a>),
    /// The term's root is put over the last results, which are those of its arguments.
    Apply(TermRef<'a>),
}

/// The choices of rules for the terms of the agenda, of which the last comes first, with new variables from a number on.
/// Those are left out whose equations nothing makes true.
pub(crate) fn choices_of(
    alloc: Global,
    theory: &Theory,
    mut agenda: Vec<Task<'_>>,
    first: u64,
) -> Result<Vec<Choices>, NoMemory>
    ensures { IfOk result (λ v. AreOpen (all_done theory.now (reverse agenda.entry.items) (no_terms first ∷ [])) v.items) }
{
    let mut choices = start(alloc, first)?;
    while let Some(task) = agenda.pop() {
        advance(alloc, theory, task, &mut agenda, &mut choices)?;
    }
    Ok(choices)
}

/// The one choice for no terms.
fn start(alloc: Global, first: u64) -> Result<Vec<Choices>, NoMemory>
    ensures { IfOk result (λ v. v.items ≡ no_terms first ∷ []) }
{
    let mut choices = Vec::with_capacity(alloc, 1)?;
    choices.push(Choices::start(alloc, first))?;
    Ok(choices)
}

/// Does the task, or puts smaller ones in its place.
fn advance<'a>(
    alloc: Global,
    theory: &Theory,
    task: Task<'a>,
    agenda: &mut Vec<Task<'a>>,
    choices: &mut Vec<Choices>,
) -> Result<(), NoMemory>
    ensures on { OnOk result (GoesOn theory.now (task.entry ∷ reverse agenda.old.items) choices.old.items (reverse agenda.new.items) choices.new.items) }
    ensures unifiable { All IsOpen choices.old.items → OnOk result (All IsOpen choices.new.items) }
    ensures smaller { OnOk result (weights (reverse agenda.new.items) < weight task.entry + weights (reverse agenda.old.items)) }
{
    match task {
        Task::Evaluate(term) => evaluate(alloc, theory, term, agenda, choices),
        Task::Apply(term) => apply(alloc, theory, term, choices),
    }
}

/// Evaluates a term without destructors to itself, and begins with the arguments of another.
fn evaluate<'a>(
    alloc: Global,
    theory: &Theory,
    term: TermRef<'a>,
    agenda: &mut Vec<Task<'a>>,
    choices: &mut Vec<Choices>,
) -> Result<(), NoMemory>
    ensures on { OnOk result (GoesOn theory.now (Task.Evaluate term.entry ∷ reverse agenda.old.items) choices.old.items (reverse agenda.new.items) choices.new.items) }
    ensures unifiable { All IsOpen choices.old.items → OnOk result (All IsOpen choices.new.items) }
    ensures smaller { OnOk result (weights (reverse agenda.new.items) < 2 * node_count (seen term.entry) + weights (reverse agenda.old.items)) }
{
    if holds_destructor(theory, term) {
        return begin(term, agenda);
    }
    add_all(alloc, term, choices)
}

/// Puts the term's arguments on the agenda, the first of them first, and then its root.
fn begin<'a>(term: TermRef<'a>, agenda: &mut Vec<Task<'a>>) -> Result<(), NoMemory>
    ensures { OnOk result (IsBegun (seen term.entry) 0 agenda.old.items agenda.new.items) }
{
    agenda.push(Task::Apply(term))?;
    let mut left = term.arity();
    while left > 0 {
        left -= 1;
        agenda.push(Task::Evaluate(term.argument(left)))?;
    }
    Ok(())
}

/// Adds a term that evaluates to itself to each of the choices.
fn add_all(alloc: Global, term: TermRef<'_>, choices: &mut [Choices]) -> Result<(), NoMemory>
    ensures { OnOk result (choices.new ≡ map (λ c. with_result c (seen term.entry)) choices.old) }
{
    for choice in choices.iter_mut() {
        choice.add(alloc, term)?;
    }
    Ok(())
}

/// Puts the term's root over the last results.
fn apply(
    alloc: Global,
    theory: &Theory,
    term: TermRef<'_>,
    choices: &mut Vec<Choices>,
) -> Result<(), NoMemory>
    ensures on { OnOk result (IsThinned (flat_map (root_applied theory.now (seen term.entry)) choices.old.items) choices.new.items) }
    ensures unifiable { All IsOpen choices.old.items → OnOk result (All IsOpen choices.new.items) }
{
    match term.view() {
        TermView::App(sym) => apply_symbol(alloc, theory, sym, term.arity(), choices),
        _ => Ok(()),
    }
}

/// Puts the symbol over the last results, of which it takes so many.
fn apply_symbol(
    alloc: Global,
    theory: &Theory,
    sym: Sym,
    arity: u32,
    choices: &mut Vec<Choices>,
) -> Result<(), NoMemory>
    requires { arity ≤ 8 }
    ensures on { OnOk result (IsThinned (flat_map (applied_last theory.now sym arity) choices.old.items) choices.new.items) }
    ensures unifiable { All IsOpen choices.old.items → OnOk result (All IsOpen choices.new.items) }
{
    if is_destructor(theory, sym) {
        let found = narrowed(alloc, theory, sym, arity, choices.as_slice())?;
        *choices = found;
        return Ok(());
    }
    construct_all(alloc, sym, arity, choices)
}

/// Puts the constructor over the last results of each of the choices.
fn construct_all(
    alloc: Global,
    sym: Sym,
    arity: u32,
    choices: &mut [Choices],
) -> Result<(), NoMemory>
    requires { arity ≤ 8 }
    ensures { OnOk result (choices.new ≡ map (constructed_last sym arity) choices.old) }
{
    for choice in choices.iter_mut() {
        choice.construct(alloc, sym, arity)?;
    }
    Ok(())
}

/// Whether a destructor stands in the term.
fn holds_destructor(theory: &Theory, term: TermRef<'_>) -> bool
    ensures { MatchBool result (¬ IsFree theory.now (seen term.entry)) (IsFree theory.now (seen term.entry)) }
{
    for node in 0..term.node_count() {
        if has_destructor_root(theory, term.subterm(node)) {
            return true;
        }
    }
    false
}

/// Whether a destructor stands at the root.
fn has_destructor_root(theory: &Theory, term: TermRef<'_>) -> bool
    ensures { MatchBool result (¬ IsRootFree theory.now (seen term.entry)) (IsRootFree theory.now (seen term.entry)) }
{
    match term.view() {
        TermView::App(sym) => is_destructor(theory, sym),
        _ => false,
    }
}

/// Whether the symbol computes by rules.
fn is_destructor(theory: &Theory, sym: Sym) -> bool
    ensures { result ≡ computes theory.now sym }
{
    match theory.kind(sym) {
        Some(SymKind::Destructor) => true,
        _ => false,
    }
}
