//! The levels of new variables.
ghost use Rattle.std.specs.Prelude.{◌≡◌, ◌↔◌, ◌≤◌, filter, map, min, ℕ, Option, Some, None, IfOk, IsTrue};
ghost use Rattle.dps_terms.specs.Bindings.{image};
ghost use Rattle.dps_terms.specs.Variables.{occurrences};
ghost use Rattle.dps_renewal.specs.Numbering.{is_among, least};
ghost use Rattle.dps_renewal.specs.Putting.{least_with};

use crate::bindings::variables_of_binding;
use crate::numbers::is_listed;
use dps_terms::{NoMemory, Subst};
use std::alloc::Global;

/// The level of each new variable: the least one of the variables in whose trees it stands.
pub(crate) fn new_levels(
    alloc: Global,
    variables: &[(u64, u32)],
    bindings: &Subst,
    fresh: &[u64],
) -> Result<Vec<u32>, NoMemory>
    ensures { IfOk result (λ v. v.items ≡ map (λ y. least (map (λ (p : ℕ × ℕ). p.1) (filter (λ (p : ℕ × ℕ). is_among y (occurrences (image bindings.now p.0))) variables.now))) fresh.now) }
{
    let mut levels = Vec::with_capacity(alloc, fresh.len())?;
    for variable in fresh {
        let level = least_level(alloc, variables, bindings, *variable)?;
        levels.push(level)?;
    }
    Ok(levels)
}

/// The least level of the variables in whose trees this one stands.
#[tactic(auto, using(crate::proofs::Lowest::pair_counts, crate::proofs::Lowest::pair_passes, crate::proofs::Lowest::all_folded))]
fn least_level(
    alloc: Global,
    variables: &[(u64, u32)],
    bindings: &Subst,
    standing: u64,
) -> Result<u32, NoMemory>
    ensures { IfOk result (λ l. l ≡ least (map (λ (p : ℕ × ℕ). p.1) (filter (λ (p : ℕ × ℕ). is_among standing (occurrences (image bindings.now p.0))) variables.now))) }
{
    let mut level = None;
    for pair in variables {
        if stands_in(alloc, bindings, pair.0, standing)? {
            level = Some(lesser(level, pair.1));
        }
    }
    Ok(level.unwrap_or(0))
}

/// The lesser of the two, where there are two.
fn lesser(level: Option<u32>, other: u32) -> u32
    ensures { result ≡ least_with level other }
{
    match level {
        Some(level) => level.min(other),
        None => other,
    }
}

/// Whether the one variable stands in the tree of the other.
fn stands_in(
    alloc: Global,
    bindings: &Subst,
    variable: u64,
    standing: u64,
) -> Result<bool, NoMemory>
    ensures { IfOk result (λ b. b ≡ is_among standing (occurrences (image bindings.now variable))) }
{
    let variables = variables_of_binding(alloc, variable, bindings)?;
    Ok(is_listed(&variables, standing))
}
