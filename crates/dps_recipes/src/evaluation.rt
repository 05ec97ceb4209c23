//! Evaluation, and the values of recipes.
ghost use Rattle.std.specs.Prelude.{◌≡◌, ◌≤◌, length, IfOk, MatchBool, MatchOption, unwrap_or};
ghost use Rattle.std.specs.Option.{option_copied};
ghost use Rattle.dps_terms.specs.Tree.{Tree};
ghost use Rattle.dps_terms.specs.Replace.{numbered};
ghost use Rattle.dps_terms.specs.Views.{arguments};
ghost use Rattle.dps_terms.specs.Seen.{seen};
ghost use Rattle.dps_theory.specs.Evaluation.{Evaluates, IsMessage};
ghost use Rattle.dps_theory.specs.Frames.{HasValue, Succeeds};
ghost use Rattle.dps_recipes.specs.Values.{PutsValue, PutsNone};

use crate::Frame;
use crate::reduction::put_applied;
use dps_terms::{NoMemory, Term, TermRef, TermStack, TermView};
use dps_theory::Theory;
use std::alloc::Global;

/// What the term evaluates to, and `None` exactly where it evaluates to nothing.
///
/// Variables, handles and entries evaluate to nothing, and so does a symbol with another number of arguments than the
/// theory says.
pub fn evaluate(alloc: Global, theory: &Theory, term: &Term) -> Result<Option<Term>, NoMemory>
    ensures { IfOk result (λ o. MatchOption o (¬ IsMessage theory.now term.now) (Evaluates theory.now term.now)) }
{
    let found = value_in(alloc, theory, &[], term.whole())?;
    Ok(found)
}

/// The value that the recipe has in the frame, and `None` exactly where it has none.
pub fn value(
    alloc: Global,
    theory: &Theory,
    frame: &Frame,
    recipe: &Term,
) -> Result<Option<Term>, NoMemory>
    ensures { IfOk result (λ o. MatchOption o (¬ Succeeds theory.now frame.now recipe.now) (HasValue theory.now frame.now recipe.now)) }
{
    let found = value_in(alloc, theory, &frame.messages, recipe.whole())?;
    Ok(found)
}

/// The value that the recipe has where the handles are these messages, and `None` exactly where it has none.
///
/// The nodes are taken from the last to the first, so that the values of a symbol's arguments are in front when it is
/// reached.
#[cycle(values)]
fn value_in(
    alloc: Global,
    theory: &Theory,
    frame: &[Term],
    recipe: TermRef<'_>,
) -> Result<Option<Term>, NoMemory>
    ensures { IfOk result (λ o. MatchOption o (¬ Succeeds theory.now frame.now (seen recipe.entry)) (HasValue theory.now frame.now (seen recipe.entry))) }
{
    let mut values = TermStack::empty(alloc);
    let mut left = recipe.node_count();
    while left > 0 {
        left -= 1;
        if !put_value(alloc, theory, frame, recipe.subterm(left), &mut values)? {
            return Ok(None);
        }
    }
    Ok(Some(values.into_term()))
}

/// Puts the recipe's value in the place of the values of its arguments, which are in front. Says whether it has one.
#[cycle(values)]
fn put_value(
    alloc: Global,
    theory: &Theory,
    frame: &[Term],
    recipe: TermRef<'_>,
    values: &mut TermStack,
) -> Result<bool, NoMemory>
    requires { length (arguments (seen recipe)) ≤ length values.old }
    ensures { IfOk result (λ found. MatchBool found (PutsValue theory.now frame.now (seen recipe.entry) values.old values.new) (PutsNone theory.now frame.now (seen recipe.entry) values.old)) }
{
    match recipe.view() {
        TermView::App(sym) => {
            let found = put_applied(alloc, theory, sym, recipe.arity(), values)?;
            Ok(found)
        }
        TermView::Ax(number) => match message(frame, number) {
            Some(message) => match value_in(alloc, theory, &[], message.whole())? {
                Some(value) => {
                    values.push(value.whole())?;
                    Ok(true)
                }
                None => Ok(false),
            },
            None => Ok(false),
        },
        TermView::Public(_) | TermView::Private(_) | TermView::Rigid(_) => {
            values.push(recipe)?;
            Ok(true)
        }
        TermView::Var(_) | TermView::Entry(_) => Ok(false),
    }
}

/// The message of a handle, which is counted from 1, and `None` exactly where there is none.
fn message(frame: &[Term], number: u32) -> Option<&Term>
    ensures { (other : Tree) → numbered frame.now number other ≡ unwrap_or (option_copied result) other }
{
    if number == 0 {
        return None;
    }
    frame.get(number as usize - 1)
}
