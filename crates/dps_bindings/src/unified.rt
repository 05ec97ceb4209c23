//! What a unifier does to what is put for variables.
ghost use Rattle.std.specs.Prelude.{◌≡◌, ◌<◌, ◌↔◌, ◌++◌, ℕ, IfOk, OnOk, IsTrue, Some, MatchOption, Contains, AllPairs};
ghost use Rattle.dps_terms.specs.Tree.{leaf, var};
ghost use Rattle.dps_terms.specs.Bindings.{image};
ghost use Rattle.dps_terms.specs.Variables.{variables};
ghost use Rattle.dps_unify.specs.Order.{level_of};
ghost use Rattle.dps_unify.specs.Unifier.{IsNotUnifiable, IsVariableOf};
ghost use Rattle.dps_solver.specs.Search.{AreNewlyBound};
ghost use Rattle.dps_bindings.specs.Putting.{IsUnifiedBy};

use crate::bindings::{Bindings, then};
use dps_terms::{NoMemory, Term, TermView};
use dps_unify::{VarOrder, mgu};
use std::alloc::Global;

/// What is put for variables when a unifier is put besides, and the variables with a level that are bound newly, each
/// with it, by number.
#[derive(Drop)]
pub struct Unified {
    pub theta: Bindings,
    pub bound: Vec<(u64, u32)>,
}

/// Makes the pairs, in which `before` is put already, equal. `None` comes exactly where nothing does.
pub fn unify(
    alloc: Global,
    order: &VarOrder,
    before: &Bindings,
    pairs: &[(Term, Term)],
) -> Result<Option<Unified>, NoMemory>
    ensures { IfOk result (λ o. MatchOption o (IsNotUnifiable pairs.now) (λ n. IsUnifiedBy order.now.levels.items pairs.now (image before.now) (image n.theta) n.bound.items)) }
{
    match mgu(alloc, order, pairs)? {
        Some(unifier) => {
            let variables = variables_of(alloc, pairs)?;
            let theta = then(alloc, before, &unifier, &variables)?;
            let bound = newly_bound(alloc, order, before, &theta, &variables)?;
            Ok(Some(Unified { theta, bound }))
        }
        None => Ok(None),
    }
}

/// The variables of the pairs, upwards, each once, and no variable that is none.
fn variables_of(alloc: Global, pairs: &[(Term, Term)]) -> Result<Vec<u64>, NoMemory>
    ensures ascending { IfOk result (λ v. AllPairs (λ m n. m < n) v.items) }
    ensures all { IfOk result (λ v. (n : ℕ) → IsVariableOf pairs.now n → Contains v.items n) }
{
    let mut variables = all_variables(alloc, pairs)?;
    variables.sort_unstable();
    variables.dedup();
    Ok(variables)
}

/// The variables of the pairs, each at least once.
fn all_variables(alloc: Global, pairs: &[(Term, Term)]) -> Result<Vec<u64>, NoMemory>
    ensures { IfOk result (λ v. (n : ℕ) → IsVariableOf pairs.now n → Contains v.items n) }
{
    let mut found = Vec::new(alloc);
    for pair in pairs {
        add_variables(alloc, &mut found, &pair.0)?;
        add_variables(alloc, &mut found, &pair.1)?;
    }
    Ok(found)
}

fn add_variables(alloc: Global, found: &mut Vec<u64>, term: &Term) -> Result<(), NoMemory>
    ensures { OnOk result (found.new.items ≡ found.old.items ++ variables term.now) }
{
    let variables = term.vars(alloc)?;
    found.extend_from_slice(&variables)?;
    Ok(())
}

/// Those of the variables, which go upwards, that have a level and are newly bound.
fn newly_bound(
    alloc: Global,
    order: &VarOrder,
    before: &Bindings,
    after: &Bindings,
    variables: &[u64],
) -> Result<Vec<(u64, u32)>, NoMemory>
    requires ascending { AllPairs (λ m n. m < n) variables.now }
    requires all { (n : ℕ) → image before.now n ≡ leaf (var n) → ¬ (image after.now n ≡ leaf (var n)) → Contains variables.now n }
    ensures { IfOk result (λ v. AreNewlyBound order.now.levels.items (image before.now) (image after.now) v.items) }
{
    let mut bound = Vec::new(alloc);
    for variable in variables {
        if let Some(level) = new_level(order, before, after, *variable) {
            bound.push((*variable, level))?;
        }
    }
    Ok(bound)
}

/// The level of a variable that is newly bound.
fn new_level(order: &VarOrder, before: &Bindings, after: &Bindings, variable: u64) -> Option<u32>
    ensures { (l : ℕ) → (result ≡ Some l) ↔ ((level_of order.now.levels.items variable ≡ Some l) × (image before.now variable ≡ leaf (var variable)) × ¬ (image after.now variable ≡ leaf (var variable))) }
{
    if is_itself(after, variable) {
        return None;
    }
    if is_itself(before, variable) {
        return level(&order.levels, variable);
    }
    None
}

/// Whether nothing but the variable is put for it.
fn is_itself(bindings: &Bindings, variable: u64) -> bool
    ensures { IsTrue result ↔ (image bindings.now variable ≡ leaf (var variable)) }
{
    match bindings.get(variable) {
        Some(term) => term.whole().view() == TermView::Var(variable),
        None => true,
    }
}

/// The level that is listed for the variable.
#[tactic(auto, using(dps_unify::proofs::Orders::level_of_drop))]
pub fn level(levels: &[(u64, u32)], variable: u64) -> Option<u32>
    ensures { result ≡ level_of levels.now variable }
{
    for pair in levels {
        if pair.0 == variable {
            return Some(pair.1);
        }
    }
    None
}
