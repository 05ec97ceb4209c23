//! Whether a variable stands in what a term becomes.
ghost use Rattle.std.specs.Prelude.{◌≡◌, ◌↔◌, ◌∷◌, None, reverse, IsTrue, IfOk, OnOk, MatchBool};
ghost use Rattle.dps_terms.specs.Tree.{Tree, var, StandsIn};
ghost use Rattle.dps_terms.specs.Replace.{substitute};
ghost use Rattle.dps_terms.specs.Bindings.{bound};
ghost use Rattle.dps_terms.specs.Seen.{seen};
ghost use Rattle.dps_unify.specs.Chain.{IsChain, solved};
ghost use Rattle.dps_unify.specs.Visits.{IsVisiting, IsPassed};

use crate::bindings::Bindings;
use dps_terms::{NoMemory, TermRef, TermView};
use indexmap::IndexSet;
use std::alloc::{AllocError, Global};

/// A term that is looked through from its last node to its first, and the variable that is bound to it: the nodes from
/// `left` on were looked at.
#[derive(Clone, Copy)]
pub(crate) struct Visit<'a> {
    pub(crate) term: TermRef<'a>,
    pub(crate) left: usize,
    pub(crate) variable: Option<u64>,
}

/// Whether the variable, which is not bound, stands in what the term becomes under the bindings. Each bound variable is
/// followed once.
pub(crate) fn reaches<'a>(
    alloc: Global,
    bindings: &Bindings<'a>,
    variable: u64,
    term: TermRef<'a>,
) -> Result<bool, NoMemory>
    requires chain { IsChain bindings.now }
    requires free { bound bindings.now variable ≡ None }
    ensures { IfOk result (λ b. IsTrue b ↔ StandsIn (var variable) (substitute (solved bindings.now) (seen term.entry))) }
{
    let mut passed = IndexSet::new(alloc);
    let mut visits = Vec::new(alloc);
    visits.push(Visit {
        term,
        left: term.node_count(),
        variable: None,
    })?;
    // What takes more steps does not fit in memory.
    for _ in 0..u64::MAX {
        match visits.pop() {
            Some(visit) => {
                if look(bindings, variable, visit, &mut visits, &mut passed)? {
                    return Ok(true);
                }
            }
            None => return Ok(false),
        }
    }
    Err(AllocError)
}

/// Looks at the next node, and answers whether it is the variable. A bound variable that was not followed yet is followed
/// next. Where no node is left, the variable stands in nothing that the term's variable becomes.
fn look<'a>(
    bindings: &Bindings<'a>,
    variable: u64,
    visit: Visit<'a>,
    visits: &mut Vec<Visit<'a>>,
    passed: &mut IndexSet<u64>,
) -> Result<bool, NoMemory>
    requires chain { IsChain bindings.now }
    requires free { bound bindings.now variable ≡ None }
    requires visiting { (whole : Tree) × IsVisiting bindings.now variable whole (visit ∷ reverse visits.old.items) passed.old.keys }
    ensures { (whole : Tree) → IsVisiting bindings.now variable whole (visit.entry ∷ reverse visits.old.items) passed.old.keys
        → IfOk result (λ found. MatchBool found (StandsIn (var variable) (substitute (solved bindings.now) whole))
        (IsVisiting bindings.now variable whole (reverse visits.new.items) passed.new.keys)) }
{
    let Visit { term, left, .. } = visit;
    if left == 0 {
        pass(visit.variable, passed)?;
        return Ok(false);
    }
    visits.push(Visit {
        left: left - 1,
        ..visit
    })?;
    let TermView::Var(number) = term.subterm(left - 1).view() else {
        return Ok(false);
    };
    if number == variable {
        return Ok(true);
    }
    if passed.contains(&number) {
        return Ok(false);
    }
    let Some(bound) = bindings.get(number) else {
        return Ok(false);
    };
    visits.push(Visit {
        term: bound,
        left: bound.node_count(),
        variable: Some(number),
    })?;
    Ok(false)
}

/// Notes the variable, where there is one.
fn pass(variable: Option<u64>, passed: &mut IndexSet<u64>) -> Result<(), NoMemory>
    ensures { OnOk result (IsPassed passed.old.keys variable passed.new.keys) }
{
    let Some(number) = variable else {
        return Ok(());
    };
    passed.insert(number)?;
    Ok(())
}
