//! A table of bags, with how many are found.
ghost use Rattle.std.specs.Prelude.{IfOk};
ghost use Rattle.std.specs.List.Sorted.{IsNonDecreasing};

use crate::{Bags, NoMemory, joined, without};
use std::alloc::{AllocError, Global};
use std::test::Fail;

/// The bag of the digits.
fn bag(alloc: Global, digits: &str) -> Result<Vec<usize>, NoMemory>
    ensures { IfOk result (λ bag. IsNonDecreasing bag.items) }
{
    let mut bag = Vec::new(alloc);
    for digit in digits.as_bytes() {
        bag.push(*digit as usize)?;
    }
    bag.sort_unstable();
    Ok(bag)
}

/// How many bags there are of these two, how many they make with one another, and how many numbers are left of the first
/// one without its first number.
fn told(alloc: Global, first: &str, second: &str) -> Result<[usize; 3], NoMemory> {
    let mut bags = Bags::of(alloc, bag(alloc, first)?)?;
    bags.add(alloc, bag(alloc, second)?)?;
    let both = joined(alloc, &bags, &bags)?;
    let mut all = Bags::of(alloc, bag(alloc, first)?)?;
    let mut left = 0;
    if bags.len() > 0 && bags.bag(0).len() > 0 {
        left = without(alloc, bags.bag(0), 0)?.len();
    }
    all.join(alloc, bags)?;
    Ok([all.len(), both.len(), left])
}

#[test]
fn bags(rt: HostRuntime) -> Result<(), Fail> {
    let alloc = rt.alloc();
    let table = [
        ("", "", [1, 1, 0]),
        ("1", "1", [1, 1, 0]),
        ("1", "2", [2, 3, 0]),
        ("11", "12", [2, 3, 1]),
        ("12", "3", [2, 3, 1]),
    ];
    for (first, second, wanted) in &table {
        let found = told(alloc, first, second)?;
        assert_eq!(rt; found, *wanted, "{first} {second}");
    }
    Ok(())
}
