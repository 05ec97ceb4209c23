//! The cases of terms.
ghost use Rattle.std.specs.Prelude.{◌≡◌, map, All, length, IfOk, OnOk};
ghost use Rattle.dps_terms.specs.Tree.{Tree};
ghost use Rattle.dps_symeval.specs.Cases.{cases as cases_of, equal_cases as equal_cases_of, ArePossible, as_case as case_of};
ghost use Rattle.dps_symeval.specs.Agenda.{as_equal_case as equal_case_of, AddsPossible};

use crate::Case;
use crate::agenda::{Task, choices_of};
use crate::choices::Choices;
use crate::narrowing::are_unifiable;
use dps_terms::{NoMemory, Term};
use dps_theory::Theory;
use std::alloc::Global;

/// The cases of the term, with new variables from the number `first` on: just those whose equations have a unifier, in order.
///
/// Cases are numbered apart: in each of them a rule's variables are raised by the first number that the case has not used
/// yet. `first` has to be above the variables of the term for the cases to cover what it evaluates to.
///
/// Rules whose equations have no unifier together with those of the rules that were chosen before are left at once. So it
/// takes time by the cases that there are, and not by the rules that could be chosen.
///
/// `Err` comes where memory runs out, or where a variable's number would pass 2^64 - 1.
pub fn cases(alloc: Global, theory: &Theory, term: &Term, first: u64) -> Result<Vec<Case>, NoMemory>
    ensures { IfOk result (λ v. ArePossible (cases_of theory.now first term.now) v.items) }
{
    let mut agenda = Vec::with_capacity(alloc, 1)?;
    agenda.push(Task::Evaluate(term.whole()))?;
    let choices = choices_of(alloc, theory, agenda, first)?;
    as_cases(alloc, choices)
}

/// The joined cases of the two terms, each with the equation of the results besides: just those whose equations have a
/// unifier, in order. The result is that of the left term.
///
/// Numbers, time and errors are as those of `cases`.
pub fn equal_cases(
    alloc: Global,
    theory: &Theory,
    left: &Term,
    right: &Term,
    first: u64,
) -> Result<Vec<Case>, NoMemory>
    ensures { IfOk result (λ v. ArePossible (equal_cases_of theory.now first left.now right.now) v.items) }
{
    let mut agenda = Vec::with_capacity(alloc, 2)?;
    agenda.push(Task::Evaluate(right.whole()))?;
    agenda.push(Task::Evaluate(left.whole()))?;
    let choices = choices_of(alloc, theory, agenda, first)?;
    as_equal_cases(alloc, choices)
}

/// The cases of choices for one term.
fn as_cases(alloc: Global, mut choices: Vec<Choices>) -> Result<Vec<Case>, NoMemory>
    requires { All (λ c. length c.results ≡ 1) choices.items }
    ensures { IfOk result (λ v. (t : Tree) → v.items ≡ map (case_of t) choices.items) }
{
    choices.as_mut_slice().reverse();
    let mut cases = Vec::with_capacity(alloc, choices.len())?;
    while let Some(choice) = choices.pop() {
        cases.push(as_case(choice))?;
    }
    Ok(cases)
}

/// The case of choices for one term.
fn as_case(choices: Choices) -> Case
    requires { length choices.results ≡ 1 }
    ensures { (t : Tree) → result ≡ case_of t choices }
{
    let Choices {
        equations,
        mut results,
        next: _,
    } = choices;
    let Some(result) = results.pop() else {
        unreachable!()
    };
    Case { equations, result }
}

/// The joined cases of choices for two terms, but those whose equations nothing makes true.
fn as_equal_cases(alloc: Global, mut choices: Vec<Choices>) -> Result<Vec<Case>, NoMemory>
    requires { All (λ c. length c.results ≡ 2) choices.items }
    ensures { IfOk result (λ v. (t u : Tree) → ArePossible (map (equal_case_of t u) choices.items) v.items) }
{
    choices.as_mut_slice().reverse();
    let mut cases = Vec::with_capacity(alloc, choices.len())?;
    while let Some(choice) = choices.pop() {
        add_equal_case(alloc, choice, &mut cases)?;
    }
    Ok(cases)
}

/// Adds the joined case of the choices, unless nothing makes its equations true.
fn add_equal_case(alloc: Global, choices: Choices, cases: &mut Vec<Case>) -> Result<(), NoMemory>
    requires { length choices.results ≡ 2 }
    ensures { OnOk result ((t u : Tree) → AddsPossible (equal_case_of t u choices) cases.old.items cases.new.items) }
{
    let case = as_equal_case(alloc, choices)?;
    if are_unifiable(alloc, &case.equations)? {
        cases.push(case)?;
    }
    Ok(())
}

/// The joined case of choices for two terms.
fn as_equal_case(alloc: Global, choices: Choices) -> Result<Case, NoMemory>
    requires { length choices.results ≡ 2 }
    ensures { IfOk result (λ case. (t u : Tree) → case ≡ equal_case_of t u choices) }
{
    let Choices {
        mut equations,
        mut results,
        next: _,
    } = choices;
    let Some(right) = results.pop() else {
        unreachable!()
    };
    let Some(result) = results.pop() else {
        unreachable!()
    };
    let left = result.copy(alloc)?;
    equations.push((left, right))?;
    Ok(Case { equations, result })
}
