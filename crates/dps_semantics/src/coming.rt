//! What parts come to by themselves.
ghost use Rattle.std.specs.Prelude.{◌↔◌, ◌≡◌, ◌∷◌, [], IfOk, IsTrue};
ghost use Rattle.dps_theory.specs.Evaluation.{AreEqual};
ghost use Rattle.dps_semantics.specs.Parts.{StandForJust};
ghost use Rattle.dps_semantics.specs.Coming.{ComesTo, AllComeTo};

use crate::parts::Parts;
use crate::putting::put;
use dps_bags::{Bags, joined};
use dps_process::{Problem, Process, ProcessView};
use dps_recipes::evaluate;
use dps_terms::{NoMemory, Term};
use std::alloc::{AllocError, Global};

/// The bags of inputs and outputs to which the parts come by themselves: a choice gives those of both processes.
pub(crate) fn all_come_to(
    alloc: Global,
    problem: &Problem,
    parts: &mut Parts,
    processes: &[Process],
) -> Result<Bags, NoMemory>
    ensures { IfOk result (StandForJust (AllComeTo problem.now.theory processes.now) parts.old parts.new) }
{
    let mut bags = Bags::of(alloc, Vec::new(alloc))?;
    for index in 0..processes.len() {
        let more = comes_to(alloc, problem, parts, &processes[index])?;
        bags = joined(alloc, &bags, &more)?;
    }
    Ok(bags)
}

/// The bags of inputs and outputs to which the process comes by itself.
pub(crate) fn comes_to(
    alloc: Global,
    problem: &Problem,
    parts: &mut Parts,
    process: &Process,
) -> Result<Bags, NoMemory>
    ensures { IfOk result (StandForJust (ComesTo problem.now.theory process.now) parts.old parts.new) }
{
    match process.view() {
        ProcessView::Nil => Bags::of(alloc, Vec::new(alloc)),
        ProcessView::Parallel(left, right) => {
            let left = comes_to(alloc, problem, parts, left)?;
            let right = comes_to(alloc, problem, parts, right)?;
            joined(alloc, &left, &right)
        }
        ProcessView::Choice(left, right) => {
            let mut bags = comes_to(alloc, problem, parts, left)?;
            let others = comes_to(alloc, problem, parts, right)?;
            bags.join(alloc, others)?;
            Ok(bags)
        }
        ProcessView::Conditional(left, right, then, other) => {
            if are_equal(alloc, problem, left, right)? {
                return comes_to(alloc, problem, parts, then);
            }
            comes_to(alloc, problem, parts, other)
        }
        ProcessView::Bind(variable, term, then, other) => match evaluate(
            alloc,
            problem.theory(),
            term,
        )? {
            Some(message) => {
                let then = put(alloc, variable, message, then)?;
                comes_to(alloc, problem, parts, &then)
            }
            None => comes_to(alloc, problem, parts, other),
        },
        ProcessView::Input(_, _, _) => one_part(alloc, parts, process),
        ProcessView::Output(_, _, _) => one_part(alloc, parts, process),
    }
}

/// The bag of the one part.
fn one_part(alloc: Global, parts: &mut Parts, process: &Process) -> Result<Bags, NoMemory>
    ensures { IfOk result (StandForJust (λ ps. ps ≡ process.now ∷ []) parts.old parts.new) }
{
    let number = parts.number(alloc, process)?;
    let mut bag = Vec::new(alloc);
    bag.push(number)?;
    Bags::of(alloc, bag)
}

/// Whether both terms evaluate to one value.
fn are_equal(alloc: Global, problem: &Problem, left: &Term, right: &Term) -> Result<bool, NoMemory>
    ensures { IfOk result (λ b. IsTrue b ↔ AreEqual problem.now.theory left.now right.now) }
{
    let theory = problem.theory();
    let Some(first) = evaluate(alloc, theory, left)? else {
        return Ok(false);
    };
    match evaluate(alloc, theory, right)? {
        Some(second) => Ok(first.equals(&second)),
        None => Ok(false),
    }
}
