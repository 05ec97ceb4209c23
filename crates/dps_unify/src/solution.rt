//! The substitution that bindings stand for.
ghost use Rattle.std.specs.Prelude.{◌≡◌, ◌∷◌, reverse, IfOk, OnOk};
ghost use Rattle.dps_terms.specs.Tree.{Tree};
ghost use Rattle.dps_terms.specs.Replace.{substitute};
ghost use Rattle.dps_terms.specs.Seen.{seen};
ghost use Rattle.dps_unify.specs.Chain.{IsChain, solved};
ghost use Rattle.dps_unify.specs.Places.{Finishes, IsPutBehind};
ghost use Rattle.dps_unify.specs.Unified.{all_solved};

use crate::bindings::Bindings;
use crate::place::Place;
use dps_terms::{NoMemory, Subst, Term, TermRef, TermStack, TermView};
use std::alloc::{AllocError, Global};

/// Each bound variable with what it becomes when all bound variables are followed.
pub(crate) fn solution(alloc: Global, bindings: &Bindings<'_>) -> Result<Subst, NoMemory>
    requires { IsChain bindings.now }
    ensures { IfOk result (λ s. s ≡ all_solved bindings.now) }
{
    let mut solution = Subst::empty(alloc);
    for index in 0..bindings.len() {
        let (variable, term) = bindings.entry(index);
        let solved = solve(alloc, bindings, term)?;
        solution.bind(variable, solved)?;
    }
    Ok(solution)
}

/// What the term becomes.
fn solve<'a>(alloc: Global, bindings: &Bindings<'a>, term: TermRef<'a>) -> Result<Term, NoMemory>
    requires { IsChain bindings.now }
    ensures { IfOk result (λ t. t ≡ substitute (solved bindings.now) (seen term.entry)) }
{
    let mut stack = TermStack::empty(alloc);
    let mut places = Vec::new(alloc);
    put_behind(&mut places, term)?;
    // What takes more steps does not fit in memory.
    for _ in 0..u64::MAX {
        match places.pop() {
            Some(place) => go_on(bindings, place, &mut places, &mut stack)?,
            None => return Ok(stack.into_term()),
        }
    }
    Err(AllocError)
}

/// Puts what the next node becomes on the stack, or goes to what its variable is bound to.
fn go_on<'a>(
    bindings: &Bindings<'a>,
    place: Place<'a>,
    places: &mut Vec<Place<'a>>,
    stack: &mut TermStack,
) -> Result<(), NoMemory>
    requires chain { IsChain bindings.now }
    requires going { (whole : Tree) × Finishes (substitute (solved bindings.now)) (place ∷ reverse places.old.items) stack.old whole }
    ensures { (whole : Tree) → Finishes (substitute (solved bindings.now)) (place.entry ∷ reverse places.old.items) stack.old whole
        → OnOk result (Finishes (substitute (solved bindings.now)) (reverse places.new.items) stack.new whole) }
{
    let Place { term, left } = place;
    if left == 0 {
        return Ok(());
    }
    let part = term.subterm(left - 1);
    places.push(Place {
        term,
        left: left - 1,
    })?;
    match part.view() {
        TermView::App(sym) => stack.apply(sym, part.arity()),
        TermView::Var(number) => match bindings.get(number) {
            Some(bound) => put_behind(places, bound),
            None => stack.push(part),
        },
        _ => stack.push(part),
    }
}

/// Puts the place behind the term's last node behind the others.
fn put_behind<'a>(places: &mut Vec<Place<'a>>, term: TermRef<'a>) -> Result<(), NoMemory>
    ensures { OnOk result (IsPutBehind places.old.items (seen term.entry) places.new.items) }
{
    places.push(Place {
        term,
        left: term.node_count(),
    })?;
    Ok(())
}
