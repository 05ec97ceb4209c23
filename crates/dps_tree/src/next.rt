//! The bags in which configurations of one frame go on.
ghost use Rattle.std.specs.Prelude.{◌≡◌, [], OnOk};
ghost use Rattle.std.specs.Ordering.{nat_cmp};
ghost use Rattle.std.specs.BTreeMap.{get};
ghost use Rattle.dps_tree.specs.Following.{IsMore, IsTaken, AreSameBut};

use crate::bags::Bags;
use dps_terms::NoMemory;
use std::alloc::{AllocError, Global};
use std::collections::BTreeMap;

/// The bags in which configurations go on, by the number of the message that was put out.
#[derive(Drop)]
pub(crate) struct Next {
    pub(crate) bags: BTreeMap<usize, Bags>,
}

impl Next {
    /// None yet. It takes no memory.
    pub(crate) fn new(alloc: Global) -> Next
        ensures { result.bags.entries ≡ [] }
    {
        Next {
            bags: BTreeMap::new(alloc),
        }
    }

    /// Adds a bag.
    pub(crate) fn add(
        &mut self,
        alloc: Global,
        message: usize,
        bag: Vec<usize>,
    ) -> Result<(), NoMemory>
        ensures { OnOk result (IsMore (λ m b. (m ≡ message) × (b ≡ bag.items)) self.old self.new) }
    {
        let mut bags = self.take(alloc, message);
        bags.add(alloc, bag)?;
        self.bags.insert(message, bags)?;
        Ok(())
    }

    /// Removes the bags out that stand at a message, which may be none.
    fn take(&mut self, alloc: Global, message: usize) -> Bags
        ensures taken { IsTaken (get nat_cmp self.old.bags message) result }
        ensures others { AreSameBut message self.old self.new }
    {
        match self.bags.remove(&message) {
            Some(bags) => bags,
            None => Bags::new(alloc),
        }
    }
}
