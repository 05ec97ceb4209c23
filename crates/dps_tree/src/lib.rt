//! Trace equivalence of problems whose processes only put out messages, where no rule computes.
//!
//! The tree has one node for each list of channels on which outputs can follow one another. A node holds the
//! configurations of both sides in which runs with these labels end, each settled: only outputs stand.
//!
//! A table gives each output and each message of the problem a number, equal ones the same. A configuration is then the
//! numbers of its parts in ascending order, so that it stands once, whatever the order of its parts; and the
//! configurations with one frame stand together, by the numbers of its messages.
#![tactic(auto)]

ghost use Rattle.std.specs.Prelude.{IfOk};
ghost use Rattle.dps_tree.specs.Answer.{IsPlainAnswer};
ghost use Rattle.dps_tree.specs.Plain.{IsPlain};

mod bags;
mod digest;
mod following;
mod group;
mod matching;
mod next;
mod node;
mod places;
mod plain;
mod table;
#[cfg(test)]
mod tests;

use crate::node::Node;
use crate::table::Table;
use dps_branch::Side;
use dps_process::Problem;
use dps_terms::NoMemory;
pub use plain::is_plain;
use std::alloc::Global;

/// The outputs `out(c1,ax1)`, `out(c2,ax2)` and so on, by their channels, which are an attack of the side.
#[derive(Drop)]
pub struct PlainAttack {
    pub side: Side,
    pub channels: Vec<u32>,
}

/// The least attack on a problem: channels are compared one by one by their numbers, and a front comes first; of two
/// sides with one list it is the left one's. `None` comes exactly where there is no attack, and then the problem is
/// equivalent.
///
/// The signature has constructors alone, the theory no rules, and the sides hold `0`, `|` and outputs on public channels
/// alone, as `is_plain` tells. It fails for want of memory alone.
pub fn plain_check(alloc: Global, problem: &Problem) -> Result<Option<PlainAttack>, NoMemory>
    requires { IsPlain problem.now }
    ensures { IfOk result (IsPlainAnswer problem.now) }
{
    let mut table = Table::new(alloc);
    let left = table.bag(alloc, problem.side(Side::Left))?;
    let right = table.bag(alloc, problem.side(Side::Right))?;
    let mut pending = Vec::new(alloc);
    pending.push(Node::root(alloc, &table, left, right)?)?;
    while let Some(node) = pending.pop() {
        if let Some(side) = node.attacked_side(alloc, problem.theory(), &table)? {
            return Ok(Some(PlainAttack {
                side,
                channels: node.into_channels(),
            }));
        }
        let mut children = node.children(alloc, &table)?;
        pending.append(&mut children)?;
    }
    Ok(None)
}
