//! Consistent nodes.
ghost use Rattle.std.specs.Prelude.{◌↔◌, All, filter_map, map, IfOk, IfSome, IsTrue};
ghost use Rattle.dps_know.specs.Know.{compositions, IsNormal};
ghost use Rattle.dps_process.specs.Labels.{label_of};
ghost use Rattle.dps_solver.specs.Solutions.{identity, Respects};
ghost use Rattle.dps_node.specs.Node.{label_tree, system_of};
ghost use Rattle.dps_node.specs.Code.{node_of};

use crate::Node;
use dps_know::Know;
use dps_process::Label;
use dps_solver::excluded;
use dps_terms::{NoMemory, Subst};
use std::alloc::Global;

/// Whether the node is consistent: no label tree has a recorded composition as a subtree, and no disequation is matched.
pub fn consistent(alloc: Global, node: &Node) -> Result<bool, NoMemory>
    ensures { IfOk result (λ b. IsTrue b ↔ Respects (system_of (node_of node.now)) identity) }
{
    if !are_normal(&node.know, &node.labels) {
        return Ok(false);
    }
    let nothing = Subst::empty(alloc);
    let matched = excluded(alloc, &nothing, &node.disequations)?;
    Ok(!matched)
}

/// Whether each label tree is normal.
fn are_normal(know: &Know, labels: &[Label]) -> bool
    ensures { IsTrue result ↔ All (IsNormal (compositions know.now)) (filter_map label_tree (map label_of labels.now)) }
{
    for label in labels {
        if !is_normal(know, label) {
            return false;
        }
    }
    true
}

/// Whether the label's tree is normal, where it has one.
fn is_normal(know: &Know, label: &Label) -> bool
    ensures { IsTrue result ↔ IfSome (label_tree (label_of label.now)) (IsNormal (compositions know.now)) }
{
    match label {
        Label::In(_, tree) => know.normal(tree),
        Label::Out(_, _) => true,
    }
}
