//! Partitions of a node's configurations.
ghost use Rattle.std.specs.Prelude.{◌≡◌, ◌++◌, length, map, true, false, IfOk};
ghost use Rattle.dps_node.specs.Splits.{chosen, where_any, partition as partition_of};
ghost use Rattle.dps_node.specs.Code.{config_of, node_of};

use crate::copying::copy_with;
use crate::{Node, SymConfig};
use dps_terms::NoMemory;
use std::alloc::Global;
use std::mem;

/// The kids of a partition: the node with the configurations at whose place `holds` says true, and the node with the
/// others. One that would have no configuration is left out. There is one truth value for each configuration.
pub fn partition(alloc: Global, node: Node, holds: &[bool]) -> Result<Vec<Node>, NoMemory>
    requires { length holds.now ≡ length node.configs.items }
    ensures { IfOk result (λ kids. map node_of kids.items ≡ partition_of (node_of node) holds.now) }
{
    let mut node = node;
    let configs = mem::replace(&mut node.configs, Vec::new(alloc));
    let (these, others) = parted(alloc, configs, holds)?;
    kids_with(alloc, node, these, others)
}

/// The node with the first configurations, and the node with the second, where there are any.
fn kids_with(
    alloc: Global,
    node: Node,
    these: Vec<SymConfig>,
    others: Vec<SymConfig>,
) -> Result<Vec<Node>, NoMemory>
    ensures { IfOk result (λ kids. map node_of kids.items ≡ where_any (node_of node) (map config_of these.items) ++ where_any (node_of node) (map config_of others.items)) }
{
    if these.is_empty() {
        return kid_alone(alloc, node, others);
    }
    if others.is_empty() {
        return kid_alone(alloc, node, these);
    }
    let first = copy_with(alloc, &node, these)?;
    let mut kids = kid_alone(alloc, node, others)?;
    kids.insert(0, first)?;
    Ok(kids)
}

/// The node with the configurations, where there are any.
fn kid_alone(alloc: Global, node: Node, configs: Vec<SymConfig>) -> Result<Vec<Node>, NoMemory>
    ensures { IfOk result (λ kids. map node_of kids.items ≡ where_any (node_of node) (map config_of configs.items)) }
{
    let mut kids = Vec::new(alloc);
    if !configs.is_empty() {
        let mut kid = node;
        kid.configs = configs;
        kids.push(kid)?;
    }
    Ok(kids)
}

/// The configurations for which it holds, and the others, each in their order.
fn parted(
    alloc: Global,
    configs: Vec<SymConfig>,
    holds: &[bool],
) -> Result<(Vec<SymConfig>, Vec<SymConfig>), NoMemory>
    requires { length holds.now ≡ length configs.items }
    ensures these { IfOk result (λ p. p.0.items ≡ chosen true holds.now configs.items) }
    ensures others { IfOk result (λ p. p.1.items ≡ chosen false holds.now configs.items) }
{
    let mut left = configs;
    let mut these = Vec::new(alloc);
    let mut others = Vec::new(alloc);
    while let Some(config) = left.pop() {
        if holds[left.len()] {
            these.push(config)?;
        } else {
            others.push(config)?;
        }
    }
    these.reverse();
    others.reverse();
    Ok((these, others))
}
