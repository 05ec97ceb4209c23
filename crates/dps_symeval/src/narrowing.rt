//! What the rules of a destructor make of results: one step of narrowing.
ghost use Rattle.std.specs.Prelude.{◌≡◌, ◌≤◌, ◌∷◌, ◌++◌, [], ◌+◌, ◌^◌, ◌<◌, length, map, drop, take, IfOk, OnOk, MatchOption, MatchBool, IfSome, All};
ghost use Rattle.std.specs.List.{zip, flat_map};
ghost use Rattle.dps_unify.specs.Renaming.{raised, HasRoom};
ghost use Rattle.dps_unify.specs.Unifier.{IsNotUnifiable};
ghost use Rattle.dps_terms.specs.Views.{arguments};
ghost use Rattle.dps_terms.specs.Variables.{variables};
ghost use Rattle.dps_theory.specs.Theory.{IsBounded};
ghost use Rattle.dps_theory.specs.Overlaps.{least_above};
ghost use Rattle.dps_theory.specs.Index.{places};
ghost use Rattle.dps_symeval.specs.Cases.{IsUnifiable, reduced_by};
ghost use Rattle.dps_symeval.specs.Agenda.{IsOpen, AreOpen, AddsOpen, reduced_last, narrowed_last, at_places};

use crate::choices::Choices;
use dps_terms::{NoMemory, Sym, Term};
use dps_theory::{Rule, Theory};
use dps_unify::{VarOrder, mgu, rename};
use std::alloc::{AllocError, Global};

/// What the rules of the destructor make of each of the choices, over the last results, of which it takes so many, or all
/// where there are fewer. Where nothing makes the equations true, nothing comes.
pub(crate) fn narrowed(
    alloc: Global,
    theory: &Theory,
    sym: Sym,
    arity: u32,
    choices: &[Choices],
) -> Result<Vec<Choices>, NoMemory>
    ensures { IfOk result (λ v. AreOpen (flat_map (narrowed_last theory.now sym arity) choices.now) v.items) }
{
    let mut found = Vec::new(alloc);
    for choice in choices {
        narrow(alloc, theory, sym, arity, choice, &mut found)?;
    }
    Ok(found)
}

/// Adds what the rules of the destructor make of the choice.
fn narrow(
    alloc: Global,
    theory: &Theory,
    sym: Sym,
    arity: u32,
    choice: &Choices,
    found: &mut Vec<Choices>,
) -> Result<(), NoMemory>
    ensures { OnOk result (AddsOpen (narrowed_last theory.now sym arity choice.now) found.old.items found.new.items) }
{
    let rules = theory.rules();
    reduce_all(alloc, rules, theory.of(sym), arity, choice, found)
}

/// Adds what the rules at these places make of the choice, in order.
fn reduce_all(
    alloc: Global,
    rules: &[Rule],
    places: &[u32],
    arity: u32,
    choice: &Choices,
    found: &mut Vec<Choices>,
) -> Result<(), NoMemory>
    requires within { All (λ place. place < length rules.now) places.now }
    requires bounded { All IsBounded rules.now }
    ensures { OnOk result (AddsOpen (map (reduced_last arity choice.now) (at_places rules.now places.now)) found.old.items found.new.items) }
{
    for place in places {
        add_reduced(alloc, &rules[*place as usize], arity, choice, found)?;
    }
    Ok(())
}

/// Adds what the rule makes of the choice.
fn add_reduced(
    alloc: Global,
    rule: &Rule,
    arity: u32,
    choice: &Choices,
    found: &mut Vec<Choices>,
) -> Result<(), NoMemory>
    requires { IsBounded rule.now }
    ensures { OnOk result (AddsOpen (reduced_last arity choice.now rule.now ∷ []) found.old.items found.new.items) }
{
    match reduced(alloc, rule, arity, choice)? {
        Some(reduced) => {
            found.push(reduced)?;
            Ok(())
        }
        None => Ok(()),
    }
}

/// What the rule makes of the choice, over the last results. `None` comes exactly where nothing makes the equations true.
fn reduced(
    alloc: Global,
    rule: &Rule,
    arity: u32,
    choice: &Choices,
) -> Result<Option<Choices>, NoMemory>
    requires { IsBounded rule.now }
    ensures { IfOk result (λ o. MatchOption o (IsNotUnifiable (reduced_last arity choice.now rule.now).equations)
        (λ d. (d ≡ reduced_last arity choice.now rule.now) × IsOpen d)) }
{
    let front = choice.results.len().saturating_sub(arity as usize);
    let (others, arguments) = choice.results.as_slice().split_at(front);
    let next = next_after(alloc, &rule.left, choice.next)?;
    let equations = with_left(alloc, &choice.equations, arguments, &rule.left, choice.next)?;
    if !are_unifiable(alloc, &equations)? {
        return Ok(None);
    }
    let right = rename(alloc, &rule.right, choice.next)?;
    let results = with_result(alloc, others, right)?;
    Ok(Some(Choices {
        equations,
        results,
        next,
    }))
}

/// The first number after those of the term's variables, where they are raised by `next`, and not before `next`.
fn next_after(alloc: Global, term: &Term, next: u64) -> Result<u64, NoMemory>
    ensures { IfOk result (λ n. n ≡ next + least_above (variables term.now)) }
{
    let variables = term.vars(alloc)?;
    let mut after = next;
    for variable in &variables {
        let Some(above) = number_above(*variable, next) else {
            return Err(AllocError);
        };
        after = after.max(above);
    }
    Ok(after)
}

/// The number after the variable's, where that is raised, and `None` where it passes 2^64 - 1.
fn number_above(variable: u64, by: u64) -> Option<u64>
    ensures { IfSome result (λ n. n ≡ variable + by + 1) }
{
    let raised = variable.checked_add(by)?;
    raised.checked_add(1)
}

/// The equations, and those that make the terms fit the arguments of the left side, with its variables raised.
fn with_left(
    alloc: Global,
    equations: &[(Term, Term)],
    terms: &[Term],
    left: &Term,
    next: u64,
) -> Result<Vec<(Term, Term)>, NoMemory>
    requires { HasRoom left.now next }
    ensures { IfOk result (λ v. v.items ≡ equations.now ++ zip terms.now (arguments (raised next left.now))) }
{
    let left = rename(alloc, left, next)?;
    with_fits(alloc, equations, terms, &left)
}

/// The equations, and those that make the terms fit the arguments of the left side.
fn with_fits(
    alloc: Global,
    equations: &[(Term, Term)],
    terms: &[Term],
    left: &Term,
) -> Result<Vec<(Term, Term)>, NoMemory>
    ensures { IfOk result (λ v. v.items ≡ equations.now ++ zip terms.now (arguments left.now)) }
{
    let mut all = copies_of_pairs(alloc, equations)?;
    let left = left.whole();
    let count = terms.len().min(left.arity() as usize);
    for index in 0..count {
        let term = terms[index].copy(alloc)?;
        let pattern = left.argument(index as u32).copy(alloc)?;
        all.push((term, pattern))?;
    }
    Ok(all)
}

/// Copies of the results, and one more.
fn with_result(alloc: Global, results: &[Term], last: Term) -> Result<Vec<Term>, NoMemory>
    ensures { IfOk result (λ v. v.items ≡ results.now ++ last ∷ []) }
{
    let mut all = Vec::with_capacity(alloc, results.len() + 1)?;
    for result in results {
        let copy = result.copy(alloc)?;
        all.push(copy)?;
    }
    all.push(last)?;
    Ok(all)
}

/// Copies of the equations.
fn copies_of_pairs(alloc: Global, pairs: &[(Term, Term)]) -> Result<Vec<(Term, Term)>, NoMemory>
    ensures { IfOk result (λ v. v.items ≡ pairs.now) }
{
    let mut copies = Vec::with_capacity(alloc, pairs.len())?;
    for (left, right) in pairs {
        let left = left.copy(alloc)?;
        let right = right.copy(alloc)?;
        copies.push((left, right))?;
    }
    Ok(copies)
}

/// Whether some substitution makes the equations true.
pub(crate) fn are_unifiable(alloc: Global, equations: &[(Term, Term)]) -> Result<bool, NoMemory>
    ensures { IfOk result (λ b. MatchBool b (IsUnifiable equations.now) (IsNotUnifiable equations.now)) }
{
    let order = VarOrder {
        levels: Vec::new(alloc),
    };
    match mgu(alloc, &order, equations)? {
        Some(_) => Ok(true),
        None => Ok(false),
    }
}
