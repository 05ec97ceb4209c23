//! Lists and sets of numbers.
ghost use Rattle.std.specs.Prelude.{◌≡◌, map, nat_eq, ℕ, IfOk, OnOk};
ghost use Rattle.indexmap.specs.IndexSet.{insert_all};
ghost use Rattle.dps_renewal.specs.Numbering.{is_among};

use dps_terms::NoMemory;
use indexmap::IndexSet;
use std::alloc::Global;

/// Adds the numbers to those that were found already, in order.
///
/// `Err` comes where memory runs out.
#[tactic(auto, using(crate::proofs::EachOnce::number_next, crate::proofs::EachOnce::numbers_all))]
pub fn add_numbers(numbers: &[u64], found: &mut IndexSet<u64>) -> Result<(), NoMemory>
    ensures { OnOk result (found.new.keys ≡ insert_all nat_eq found.old.keys numbers.now) }
{
    for number in numbers {
        found.insert(*number)?;
    }
    Ok(())
}

/// The numbers of the pairs.
pub(crate) fn numbers_of(alloc: Global, variables: &[(u64, u32)]) -> Result<Vec<u64>, NoMemory>
    ensures { IfOk result (λ v. v.items ≡ map (λ (p : ℕ × ℕ). p.0) variables.now) }
{
    let mut numbers = Vec::with_capacity(alloc, variables.len())?;
    for pair in variables {
        numbers.push(pair.0)?;
    }
    Ok(numbers)
}

/// Whether the number is one of these.
pub(crate) fn is_listed(numbers: &[u64], number: u64) -> bool
    ensures { result ≡ is_among number numbers.now }
{
    for one in numbers {
        if *one == number {
            return true;
        }
    }
    false
}
