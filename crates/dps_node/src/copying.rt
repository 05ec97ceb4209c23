//! Nodes in memory of their own.
ghost use Rattle.std.specs.Prelude.{◌≡◌, map, IfOk};
ghost use Rattle.dps_solver.specs.Code.{disequation_of};
ghost use Rattle.dps_node.specs.Node.{with_configs};
ghost use Rattle.dps_node.specs.Code.{node_of, config_of};

use crate::{Node, SymConfig};
use dps_process::Label;
use dps_solver::Disequation;
use dps_terms::{NoMemory, Term};
use std::alloc::Global;

/// The same node with these configurations.
pub(crate) fn copy_with(
    alloc: Global,
    node: &Node,
    configs: Vec<SymConfig>,
) -> Result<Node, NoMemory>
    ensures { IfOk result (λ n. node_of n ≡ with_configs (node_of node.now) (map config_of configs.items)) }
{
    let labels = copies_of_labels(alloc, &node.labels)?;
    let levels = Vec::from_slice(alloc, &node.levels)?;
    let know = node.know.copy(alloc)?;
    let disequations = copies_of_disequations(alloc, &node.disequations)?;
    Ok(Node {
        labels,
        levels,
        know,
        disequations,
        configs,
        m: node.m,
        closed: node.closed,
        examine: node.examine,
        count: node.count,
    })
}

fn copies_of_labels(alloc: Global, labels: &[Label]) -> Result<Vec<Label>, NoMemory>
    ensures { IfOk result (λ v. v.items ≡ labels.now) }
{
    let mut made = Vec::with_capacity(alloc, labels.len())?;
    for label in labels {
        let copy = copy_of_label(alloc, label)?;
        made.push(copy)?;
    }
    Ok(made)
}

fn copy_of_label(alloc: Global, label: &Label) -> Result<Label, NoMemory>
    ensures { IfOk result (λ l. l ≡ label.now) }
{
    match label {
        Label::In(channel, tree) => {
            let tree = tree.copy(alloc)?;
            Ok(Label::In(*channel, tree))
        }
        Label::Out(channel, number) => Ok(Label::Out(*channel, *number)),
    }
}

pub(crate) fn copies_of_disequations(
    alloc: Global,
    disequations: &[Disequation],
) -> Result<Vec<Disequation>, NoMemory>
    ensures { IfOk result (λ v. map disequation_of v.items ≡ map disequation_of disequations.now) }
{
    let mut made = Vec::with_capacity(alloc, disequations.len())?;
    for disequation in disequations {
        let copy = copy_of_disequation(alloc, disequation)?;
        made.push(copy)?;
    }
    Ok(made)
}

fn copy_of_disequation(alloc: Global, disequation: &Disequation) -> Result<Disequation, NoMemory>
    ensures { IfOk result (λ d. disequation_of d ≡ disequation_of disequation.now) }
{
    let free = Vec::from_slice(alloc, &disequation.free)?;
    let pairs = copies_of_pairs(alloc, &disequation.pairs)?;
    Ok(Disequation { free, pairs })
}

fn copies_of_pairs(alloc: Global, pairs: &[(Term, Term)]) -> Result<Vec<(Term, Term)>, NoMemory>
    ensures { IfOk result (λ v. v.items ≡ pairs.now) }
{
    let mut made = Vec::with_capacity(alloc, pairs.len())?;
    for (tree, pattern) in pairs {
        let tree = tree.copy(alloc)?;
        let pattern = pattern.copy(alloc)?;
        made.push((tree, pattern))?;
    }
    Ok(made)
}
