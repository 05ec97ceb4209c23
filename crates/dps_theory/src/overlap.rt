//! Overlaps of two rules.
ghost use Rattle.std.specs.Prelude.{◌≡◌, ◌<◌, ◌^◌, ◌++◌, ◌∷◌, [], ◌-◌, ◌↔◌, min, length, All, IfOk, OnOk, IsTrue, MatchOption};
ghost use Rattle.dps_terms.specs.Replace.{substitute};
ghost use Rattle.dps_terms.specs.Bindings.{image};
ghost use Rattle.dps_terms.specs.Variables.{variables};
ghost use Rattle.dps_unify.specs.Unifier.{IsMgu, IsNotUnifiable};
ghost use Rattle.dps_theory.specs.Theory.{Agree, IsBounded};
ghost use Rattle.dps_theory.specs.Overlaps.{IsOverlap, HasSmallVariables, least_above, levels_from};

use crate::Rule;
use dps_terms::{NoMemory, Subst, Term};
use dps_unify::{VarOrder, mgu, rename};
use std::alloc::Global;

/// A common instance of the left sides whose right sides differ there, and `None` exactly where the rules agree.
pub(crate) fn overlap(alloc: Global, first: &Rule, second: &Rule) -> Result<Option<Subst>, NoMemory>
    requires bounded { IsBounded first.now }
    requires first_small { HasSmallVariables first.now }
    requires second_small { HasSmallVariables second.now }
    ensures { IfOk result (λ o. MatchOption o (Agree first.now second.now) (IsOverlap first.now second.now)) }
{
    let by = room_of(alloc, &first.left)?;
    let left = rename(alloc, &second.left, by)?;
    let Some(unifier) = unifier_of(alloc, &first.left, left)? else {
        return Ok(None);
    };
    let right = rename(alloc, &second.right, by)?;
    if are_equal_under(alloc, &unifier, &first.right, &right)? {
        return Ok(None);
    }
    Ok(Some(unifier))
}

/// The least number above all of the term's variables.
pub(crate) fn room_of(alloc: Global, term: &Term) -> Result<u64, NoMemory>
    requires { All (λ n. n < 2 ^ 32) (variables term.now) }
    ensures { IfOk result (λ n. n ≡ least_above (variables term.now)) }
{
    let variables = term.vars(alloc)?;
    Ok(above(&variables))
}

/// The most general unifier for which the variables of the first term come before those of the second, each by first
/// occurrence.
fn unifier_of(alloc: Global, first: &Term, second: Term) -> Result<Option<Subst>, NoMemory>
    ensures { IfOk result (λ o. MatchOption o (IsNotUnifiable ((first.now, second) ∷ [])) (IsMgu (levels_from 0 (variables first.now ++ variables second)) ((first.now, second) ∷ []))) }
{
    let order = order_of(alloc, &first.vars(alloc)?, &second.vars(alloc)?)?;
    let pairs = vec![in alloc; (first.copy(alloc)?, second)]?;
    mgu(alloc, &order, &pairs)
}

/// Whether the substitution makes the terms equal.
fn are_equal_under(alloc: Global, by: &Subst, first: &Term, second: &Term) -> Result<bool, NoMemory>
    ensures { IfOk result (λ b. IsTrue b ↔ (substitute (image by.now) first.now ≡ substitute (image by.now) second.now)) }
{
    let one = first.subst(alloc, by)?;
    let other = second.subst(alloc, by)?;
    Ok(one.equals(&other))
}

/// The least number above all of the variables.
fn above(variables: &[u64]) -> u64
    requires { All (λ n. n < 2 ^ 32) variables.now }
    ensures { result ≡ least_above variables.now }
{
    let mut least: u64 = 0;
    for variable in variables {
        least = least.max(*variable + 1);
    }
    least
}

/// The order of the variables in which those of the first list come before those of the second.
fn order_of(alloc: Global, first: &[u64], second: &[u64]) -> Result<VarOrder, NoMemory>
    ensures { IfOk result (λ o. o.levels.items ≡ levels_from 0 (first.now ++ second.now)) }
{
    let mut levels = Vec::new(alloc);
    push_levels(&mut levels, first)?;
    push_levels(&mut levels, second)?;
    Ok(VarOrder { levels })
}

/// Adds each variable with its place as its level.
fn push_levels(levels: &mut Vec<(u64, u32)>, variables: &[u64]) -> Result<(), NoMemory>
    ensures { OnOk result (levels.new.items ≡ levels.old.items ++ levels_from (length levels.old.items) variables.now) }
{
    for variable in variables {
        let level = level_at(levels.len());
        levels.push((*variable, level))?;
    }
    Ok(())
}

/// The level of a place: the last one from 2^32 - 1 on.
fn level_at(place: usize) -> u32
    ensures { result ≡ min place (2 ^ 32 - 1) }
{
    if place < u32::MAX as usize {
        place as u32
    } else {
        u32::MAX
    }
}
