//! One bag.
ghost use Rattle.std.specs.Prelude.{◌≡◌, ◌<◌, ◌+◌, ◌++◌, take, drop, length, IsTrue, IfOk};
ghost use Rattle.std.specs.List.Sorted.{IsNonDecreasing};
ghost use Rattle.dps_bags.specs.Bags.{IsJoined, IsRepeated};

use crate::NoMemory;
use std::alloc::{AllocError, Global};

/// Whether the number before this one is the same.
pub fn is_repeated(bag: &[usize], index: usize) -> bool
    requires { index < length bag.now }
    ensures { IsTrue result → IsRepeated bag.now index }
{
    index > 0 && bag[index - 1] == bag[index]
}

/// The bag without the number at the place.
pub fn without(alloc: Global, bag: &[usize], place: usize) -> Result<Vec<usize>, NoMemory>
    requires { place < length bag.now }
    ensures rest { IfOk result (λ rest. rest.items ≡ take place bag.now ++ drop (place + 1) bag.now) }
    ensures ascending { IsNonDecreasing bag.now → IfOk result (λ rest. IsNonDecreasing rest.items) }
{
    let mut rest = Vec::with_capacity(alloc, bag.len())?;
    rest.extend_from_slice(&bag[..place])?;
    rest.extend_from_slice(&bag[place + 1..])?;
    Ok(rest)
}

/// The numbers of both, in ascending order.
pub(crate) fn both(alloc: Global, one: &[usize], other: &[usize]) -> Result<Vec<usize>, NoMemory>
    ensures joined { IfOk result (λ bag. IsJoined one.now other.now bag.items) }
    ensures ascending { IfOk result (λ bag. IsNonDecreasing bag.items) }
{
    let mut bag = Vec::with_capacity(alloc, one.len().saturating_add(other.len()))?;
    bag.extend_from_slice(one)?;
    bag.extend_from_slice(other)?;
    bag.sort_unstable();
    Ok(bag)
}
