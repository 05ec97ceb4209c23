//! Nodes of the tree of outputs.
ghost use Rattle.std.specs.Prelude.{◌≡◌, IfOk};
ghost use Rattle.dps_tree.specs.Groups.{StandForSome, HoldsFrame};
ghost use Rattle.dps_tree.specs.Matching.{AreLevel};

use crate::following::{add_channels, following};
use crate::group::Group;
use crate::matching::{are_matched, is_mutual};
use crate::table::Table;
use dps_branch::Side;
use dps_terms::NoMemory;
use dps_theory::Theory;
use std::alloc::{AllocError, Global};
use std::collections::BTreeSet;

/// The configurations of both sides in which runs with outputs on these channels end.
#[derive(Drop)]
pub(crate) struct Node {
    channels: Vec<u32>,
    left: Vec<Group>,
    right: Vec<Group>,
}

impl Node {
    ghost use Rattle.dps_tree.specs.Nodes.{IsRoot, IsNamedNode, HoldsOffers, IsChild, AreChildren, IsSideAnswer};

    /// The node of no output, where the sides come to these outputs.
    pub(crate) fn root(
        alloc: Global,
        table: &Table<'_>,
        left: Vec<usize>,
        right: Vec<usize>,
    ) -> Result<Node, NoMemory>
        requires on_left { StandForSome table.now left.items }
        requires on_right { StandForSome table.now right.items }
        ensures { IfOk result (IsRoot table.now left.items right.items) }
    {
        let left = Group::start(alloc, left)?;
        let right = Group::start(alloc, right)?;
        Ok(Node {
            channels: Vec::new(alloc),
            left: vec![in alloc; left]?,
            right: vec![in alloc; right]?,
        })
    }

    /// The side that has a configuration which no configuration of the other matches; the left one where both have.
    pub(crate) fn attacked_side(
        &self,
        alloc: Global,
        theory: &Theory,
        table: &Table<'_>,
    ) -> Result<Option<Side>, NoMemory>
        requires { AreLevel (HoldsFrame table.now self.now.left.items) (HoldsFrame table.now self.now.right.items) }
        ensures { IfOk result (IsSideAnswer table.now theory.now self.now) }
    {
        if !are_matched(alloc, theory, table, &self.left, &self.right)? {
            return Ok(Some(Side::Left));
        }
        if is_mutual(&self.left, &self.right) {
            return Ok(None);
        }
        if !are_matched(alloc, theory, table, &self.right, &self.left)? {
            return Ok(Some(Side::Right));
        }
        Ok(None)
    }

    /// The nodes of one more output, the greatest channel first.
    pub(crate) fn children(&self, alloc: Global, table: &Table<'_>) -> Result<Vec<Node>, NoMemory>
        requires { IsNamedNode table.now self.now }
        ensures { IfOk result (λ children. AreChildren table.now self.now children.items) }
    {
        let mut channels = self.offered(alloc, table)?;
        let mut children = Vec::new(alloc);
        while let Some(channel) = channels.pop_last() {
            children.push(self.child(alloc, table, channel)?)?;
        }
        Ok(children)
    }

    /// The channels on which some configuration offers an output.
    fn offered(&self, alloc: Global, table: &Table<'_>) -> Result<BTreeSet<u32>, NoMemory>
        requires { IsNamedNode table.now self.now }
        ensures { IfOk result (λ channels. HoldsOffers table.now self.now channels.keys) }
    {
        let mut channels = BTreeSet::new(alloc);
        add_channels(table, &self.left, &mut channels)?;
        add_channels(table, &self.right, &mut channels)?;
        Ok(channels)
    }

    /// The node of one more output, on this channel.
    fn child(&self, alloc: Global, table: &Table<'_>, channel: u32) -> Result<Node, NoMemory>
        requires { IsNamedNode table.now self.now }
        ensures { IfOk result (IsChild table.now self.now channel) }
    {
        let mut channels = Vec::new(alloc);
        channels.extend_from_slice(&self.channels)?;
        channels.push(channel)?;
        Ok(Node {
            channels,
            left: following(alloc, table, &self.left, channel)?,
            right: following(alloc, table, &self.right, channel)?,
        })
    }

    /// The channels of the outputs.
    pub(crate) fn into_channels(self) -> Vec<u32>
        ensures { result.items ≡ self.channels.items }
    {
        self.channels
    }
}
