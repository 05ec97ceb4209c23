//! The variables of trees and of nodes.
ghost use Rattle.std.specs.Prelude.{◌≡◌, ◌++◌, ◌∷◌, [], filter, filter_map, map, nat_eq, ℕ, IfOk, OnOk};
ghost use Rattle.std.specs.List.{flat_map};
ghost use Rattle.indexmap.specs.IndexSet.{insert_all};
ghost use Rattle.dps_terms.specs.Variables.{occurrences, each_once, variables as variables_of_tree};
ghost use Rattle.dps_process.specs.Labels.{label_of};
ghost use Rattle.dps_node.specs.Node.{label_tree, numbered_from, variables_of};
ghost use Rattle.dps_renewal.specs.Numbering.{is_among};
ghost use Rattle.dps_node.specs.Code.{node_of, label_variables};

use crate::Node;
use dps_process::Label;
use dps_renewal::add_numbers;
use dps_terms::{NoMemory, Term};
use indexmap::IndexSet;
use std::alloc::Global;

/// The node's variables with their levels, by number: those that stand in its label trees.
pub fn variables(alloc: Global, node: &Node) -> Result<Vec<(u64, u32)>, NoMemory>
    ensures { IfOk result (λ v. v.items ≡ variables_of (node_of node.now)) }
{
    let standing = variables_of_labels(alloc, &node.labels)?;
    levels_of(alloc, &node.levels, &standing)
}

/// The numbers of the set, with their levels, in ascending order.
#[tactic(auto, using(crate::proofs::Numbered::level_found))]
fn levels_of(
    alloc: Global,
    levels: &[u32],
    standing: &IndexSet<u64>,
) -> Result<Vec<(u64, u32)>, NoMemory>
    ensures { IfOk result (λ v. v.items ≡ filter (λ (p : ℕ × ℕ). is_among p.0 standing.now.keys) (numbered_from 1 levels.now)) }
{
    let mut found = Vec::new(alloc);
    for (i, level) in levels.iter().enumerate() {
        push_level(&mut found, i as u64 + 1, *level, standing)?;
    }
    Ok(found)
}

/// Adds the number with its level, where it is in the set.
fn push_level(
    found: &mut Vec<(u64, u32)>,
    number: u64,
    level: u32,
    standing: &IndexSet<u64>,
) -> Result<(), NoMemory>
    ensures { OnOk result (found.new.items ≡ found.old.items ++ filter (λ (p : ℕ × ℕ). is_among p.0 standing.now.keys) ((number, level) ∷ [])) }
{
    if standing.contains(&number) {
        found.push((number, level))?;
    }
    Ok(())
}

/// The variables of the label trees, each once, by first occurrence.
#[tactic(auto, using(crate::proofs::Numbered::next_label))]
pub(crate) fn variables_of_labels(
    alloc: Global,
    labels: &[Label],
) -> Result<IndexSet<u64>, NoMemory>
    ensures { IfOk result (λ set. set.keys ≡ each_once (flat_map occurrences (filter_map label_tree (map label_of labels.now)))) }
{
    let mut found = IndexSet::new(alloc);
    for label in labels {
        add_label(alloc, label, &mut found)?;
    }
    Ok(found)
}

/// Adds the variables of the label's tree to those that were found already.
fn add_label(alloc: Global, label: &Label, found: &mut IndexSet<u64>) -> Result<(), NoMemory>
    ensures { OnOk result (found.new.keys ≡ insert_all nat_eq found.old.keys (label_variables (label_of label.now))) }
{
    match label {
        Label::In(_, tree) => add_variables(alloc, tree, found),
        Label::Out(_, _) => Ok(()),
    }
}

/// Adds the variables of the tree to those that were found already.
fn add_variables(alloc: Global, tree: &Term, found: &mut IndexSet<u64>) -> Result<(), NoMemory>
    ensures { OnOk result (found.new.keys ≡ insert_all nat_eq found.old.keys (variables_of_tree tree.now)) }
{
    let variables = tree.vars(alloc)?;
    add_numbers(&variables, found)
}
