//! The variables that stand in the trees of variables.
ghost use Rattle.std.specs.Prelude.{◌≡◌, filter, map, not, IfOk};
ghost use Rattle.std.specs.List.{flat_map};
ghost use Rattle.dps_terms.specs.Bindings.{image};
ghost use Rattle.dps_terms.specs.Variables.{occurrences, each_once, variables};
ghost use Rattle.dps_renewal.specs.Numbering.{is_among};

use crate::numbers::add_numbers;
use dps_terms::{NoMemory, Subst};
use indexmap::IndexSet;
use std::alloc::Global;

/// The variables of the trees of these variables that are none of them, each once, by first occurrence.
#[tactic(auto, using(crate::proofs::EachOnce::others_once))]
pub(crate) fn new_variables(
    alloc: Global,
    own: &[u64],
    bindings: &Subst,
) -> Result<IndexSet<u64>, NoMemory>
    ensures { IfOk result (λ set. set.keys ≡ filter (λ y. not (is_among y own.now)) (each_once (flat_map occurrences (map (image bindings.now) own.now)))) }
{
    let mut known = IndexSet::new(alloc);
    add_numbers(own, &mut known)?;
    let standing = variables_of_bindings(alloc, own, bindings)?;
    not_among(alloc, standing.as_slice(), &known)
}

/// The variables of the trees of these variables, each once, by first occurrence.
#[tactic(auto, using(crate::proofs::EachOnce::next_binding))]
fn variables_of_bindings(
    alloc: Global,
    own: &[u64],
    bindings: &Subst,
) -> Result<IndexSet<u64>, NoMemory>
    ensures { IfOk result (λ set. set.keys ≡ each_once (flat_map occurrences (map (image bindings.now) own.now))) }
{
    let mut found = IndexSet::new(alloc);
    for variable in own {
        let standing = variables_of_binding(alloc, *variable, bindings)?;
        add_numbers(&standing, &mut found)?;
    }
    Ok(found)
}

/// The variables of the variable's tree, each once, by first occurrence.
pub(crate) fn variables_of_binding(
    alloc: Global,
    variable: u64,
    bindings: &Subst,
) -> Result<Vec<u64>, NoMemory>
    ensures { IfOk result (λ v. v.items ≡ variables (image bindings.now variable)) }
{
    match bindings.get(variable) {
        Some(tree) => tree.vars(alloc),
        None => {
            let mut itself = Vec::with_capacity(alloc, 1)?;
            itself.push(variable)?;
            Ok(itself)
        }
    }
}

/// The numbers that are not in the set, each once, in order.
#[tactic(auto, using(crate::proofs::EachOnce::passes_once, crate::proofs::EachOnce::stops_once))]
fn not_among(
    alloc: Global,
    numbers: &[u64],
    known: &IndexSet<u64>,
) -> Result<IndexSet<u64>, NoMemory>
    ensures { IfOk result (λ set. set.keys ≡ each_once (filter (λ y. not (is_among y known.now.keys)) numbers.now)) }
{
    let mut others = IndexSet::new(alloc);
    for number in numbers {
        if !known.contains(number) {
            others.insert(*number)?;
        }
    }
    Ok(others)
}
