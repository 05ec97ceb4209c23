//! Bags put together.
ghost use Rattle.std.specs.Prelude.{IfOk, OnOk};
ghost use Rattle.dps_bags.specs.Bags.{AreJoined, AddsJoined};

use crate::NoMemory;
use crate::bag::both;
use crate::bags::Bags;
use std::alloc::{AllocError, Global};

/// Each bag of the ones with each of the others.
pub fn joined(alloc: Global, ones: &Bags, others: &Bags) -> Result<Bags, NoMemory>
    ensures { IfOk result (AreJoined ones.now others.now) }
{
    let mut found = Bags::new(alloc);
    for index in 0..ones.len() {
        add_joined(alloc, ones.bag(index), others, &mut found)?;
    }
    Ok(found)
}

/// Adds the bag with each of the others.
fn add_joined(alloc: Global, one: &[usize], others: &Bags, found: &mut Bags) -> Result<(), NoMemory>
    ensures { OnOk result (AddsJoined one.now others.now found.old found.new) }
{
    for index in 0..others.len() {
        found.add(alloc, both(alloc, one, others.bag(index))?)?;
    }
    Ok(())
}
