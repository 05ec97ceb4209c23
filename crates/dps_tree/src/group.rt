//! Configurations by their frames.
ghost use Rattle.std.specs.Prelude.{IfOk};
ghost use Rattle.dps_tree.specs.Groups.{IsStartGroup};

use crate::bags::Bags;
use dps_terms::NoMemory;
use std::alloc::{AllocError, Global};

/// All configurations of a side that have one frame: the numbers of its messages, and of each configuration the numbers of
/// its parts, in ascending order.
#[derive(Drop)]
pub(crate) struct Group {
    pub(crate) frame: Vec<usize>,
    pub(crate) bags: Bags,
}

impl Group {
    /// The configuration of these parts that has put nothing out.
    pub(crate) fn start(alloc: Global, bag: Vec<usize>) -> Result<Group, NoMemory>
        ensures { IfOk result (IsStartGroup bag.items) }
    {
        let mut bags = Bags::new(alloc);
        bags.add(alloc, bag)?;
        Ok(Group {
            frame: Vec::new(alloc),
            bags,
        })
    }
}
