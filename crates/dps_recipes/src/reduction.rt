//! What rules make of terms, at their roots.
ghost use Rattle.std.specs.Prelude.{◌≡◌, ◌≤◌, length, take, IfOk, MatchBool, MatchOption};
ghost use Rattle.dps_terms.specs.Tree.{trees};
ghost use Rattle.dps_theory.specs.Theory.{IsAccepted};
ghost use Rattle.dps_recipes.specs.Reduction.{DoesNotFit, IsInstance, IsStuck, IsReduct, HasAllAt, GivesNothing, PutsGiven, PutsReduct};

use dps_signature::SymKind;
use dps_terms::{NoMemory, Sym, Term, TermStack};
use dps_theory::{Rule, Theory};
use dps_unify::matches;
use std::alloc::Global;

/// The rule's right side where its left side becomes the term, and `None` exactly where the left side does not become it.
pub(crate) fn rewritten(alloc: Global, rule: &Rule, term: &Term) -> Result<Option<Term>, NoMemory>
    ensures { IfOk result (λ o. MatchOption o (DoesNotFit rule.now term.now) (IsInstance rule.now term.now)) }
{
    let free = rule.left.vars(alloc)?;
    match matches(alloc, &rule.left, &free, term)? {
        Some(by) => {
            let value = rule.right.subst(alloc, &by)?;
            Ok(Some(value))
        }
        None => Ok(None),
    }
}

/// What the first of the rules at these places that fits makes of the term, and `None` exactly where no rule fits. All
/// rules that fit stand at these places.
fn reduct(
    alloc: Global,
    rules: &[Rule],
    places: &[u32],
    term: &Term,
) -> Result<Option<Term>, NoMemory>
    requires { HasAllAt rules.now places.now term.now }
    ensures { IfOk result (λ o. MatchOption o (IsStuck rules.now term.now) (IsReduct rules.now term.now)) }
{
    for place in places {
        if let Some(value) = rewritten(alloc, &rules[*place as usize], term)? {
            return Ok(Some(value));
        }
    }
    Ok(None)
}

/// Puts what the symbol gives in the place of the values in front, of which it takes so many. Says whether it gives
/// anything. The theory is an accepted one.
pub(crate) fn put_applied(
    alloc: Global,
    theory: &Theory,
    sym: Sym,
    arity: u32,
    values: &mut TermStack,
) -> Result<bool, NoMemory>
    requires few { arity ≤ 8 }
    requires there { arity ≤ length values.old }
    ensures given { IfOk result (λ found. MatchBool found (PutsGiven theory.now sym arity values.old values.new) (GivesNothing theory.now sym (trees (take arity values.old)))) }
    ensures accepted { IfOk result (λ _. IsAccepted theory.now) }
{
    let rules = theory.rules();
    if theory.arity(sym) != Some(arity) {
        return Ok(false);
    }
    values.apply(sym, arity)?;
    match theory.kind(sym) {
        Some(SymKind::Constructor) => Ok(true),
        Some(SymKind::Destructor) => {
            let term = values.pop()?;
            let found = put_reduct(alloc, rules, theory.of(sym), &term, values)?;
            Ok(found)
        }
        None => Ok(false),
    }
}

/// Puts what the rules at these places make of the term in front. Says whether a rule fits. All rules that fit stand at
/// these places.
fn put_reduct(
    alloc: Global,
    rules: &[Rule],
    places: &[u32],
    term: &Term,
    values: &mut TermStack,
) -> Result<bool, NoMemory>
    requires { HasAllAt rules.now places.now term.now }
    ensures { IfOk result (λ found. MatchBool found (PutsReduct rules.now term.now values.old values.new) (IsStuck rules.now term.now)) }
{
    match reduct(alloc, rules, places, term)? {
        Some(value) => {
            values.push(value.whole())?;
            Ok(true)
        }
        None => Ok(false),
    }
}
