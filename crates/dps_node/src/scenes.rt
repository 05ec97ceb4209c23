//! The scene of a configuration.
ghost use Rattle.std.specs.Prelude.{◌≡◌, ◌++◌, ◌∷◌, [], filter_map, map, IfOk, OnOk};
ghost use Rattle.dps_process.specs.Labels.{label_of};
ghost use Rattle.dps_search.specs.Code.{scene_of as scene_seen};
ghost use Rattle.dps_node.specs.Node.{label_tree, scene_of};
ghost use Rattle.dps_node.specs.Code.{config_of, node_of};

use crate::copying::copies_of_disequations;
use crate::numbering::variables;
use crate::{Node, SymConfig};
use dps_process::Label;
use dps_search::Scene;
use dps_terms::{NoMemory, Term};
use std::alloc::Global;

/// The scene of a configuration of the node, in which questions are asked. All configurations of a node have the same scene
/// but for the values of the entries.
pub fn scene(alloc: Global, node: &Node, config: &SymConfig) -> Result<Scene, NoMemory>
    ensures { IfOk result (λ s. scene_seen s ≡ scene_of (node_of node.now) (config_of config.now)) }
{
    let levels = variables(alloc, node)?;
    let values = copies_of_trees(alloc, &config.values)?;
    let know = node.know.copy(alloc)?;
    let labels = label_trees(alloc, &node.labels)?;
    let disequations = copies_of_disequations(alloc, &node.disequations)?;
    Ok(Scene {
        m: node.m,
        levels,
        values,
        know,
        labels,
        disequations,
    })
}

fn copies_of_trees(alloc: Global, trees: &[Term]) -> Result<Vec<Term>, NoMemory>
    ensures { IfOk result (λ v. v.items ≡ trees.now) }
{
    let mut made = Vec::with_capacity(alloc, trees.len())?;
    for tree in trees {
        let copy = tree.copy(alloc)?;
        made.push(copy)?;
    }
    Ok(made)
}

/// The trees of the input labels.
#[tactic(auto, using(crate::proofs::Numbered::label_trees_more))]
fn label_trees(alloc: Global, labels: &[Label]) -> Result<Vec<Term>, NoMemory>
    ensures { IfOk result (λ v. v.items ≡ filter_map label_tree (map label_of labels.now)) }
{
    let mut trees = Vec::new(alloc);
    for label in labels {
        push_label_tree(alloc, &mut trees, label)?;
    }
    Ok(trees)
}

fn push_label_tree(alloc: Global, trees: &mut Vec<Term>, label: &Label) -> Result<(), NoMemory>
    ensures { OnOk result (trees.new.items ≡ trees.old.items ++ filter_map label_tree (label_of label.now ∷ [])) }
{
    if let Label::In(_, tree) = label {
        let copy = tree.copy(alloc)?;
        trees.push(copy)?;
    }
    Ok(())
}
