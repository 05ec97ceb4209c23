//! The word of a node as it is printed.
ghost use Rattle.std.specs.Prelude.{◌≡◌, map, IfOk};
ghost use Rattle.dps_know.specs.Know.{recipe_of};
ghost use Rattle.dps_process.specs.Labels.{label_of};
ghost use Rattle.dps_node.specs.Node.{label_under};
ghost use Rattle.dps_node.specs.Words.{word_recipes, ground_word};
ghost use Rattle.dps_node.specs.Code.{node_of};

use crate::Node;
use crate::labels::labels_under;
use crate::numbering::variables_of_labels;
use dps_know::Know;
use dps_process::Label;
use dps_terms::{NoMemory, PublicName, Replacement, Term, TermLeaf, TermStack};
use indexmap::IndexSet;
use std::alloc::{AllocError, Global};

/// The word of the node: its labels with recipes in the place of trees, and with the attacker's names `@1`, `@2` and so on
/// for the variables, by first occurrence.
pub fn ground_trace(alloc: Global, node: &Node) -> Result<Vec<Label>, NoMemory>
    ensures { IfOk result (λ word. map label_of word.items ≡ ground_word (node_of node.now)) }
{
    let recipes = with_recipes(alloc, &node.know, &node.labels)?;
    let variables = variables_of_labels(alloc, &recipes)?;
    let word = labels_under(alloc, &recipes, &FreshNames { variables })?;
    Ok(word)
}

/// The labels with recipes in the place of trees.
fn with_recipes(alloc: Global, know: &Know, labels: &[Label]) -> Result<Vec<Label>, NoMemory>
    ensures { IfOk result (λ v. map label_of v.items ≡ map (label_under (recipe_of know.now)) (map label_of labels.now)) }
{
    let mut made = Vec::with_capacity(alloc, labels.len())?;
    for label in labels {
        let one = with_recipe(alloc, know, label)?;
        made.push(one)?;
    }
    Ok(made)
}

fn with_recipe(alloc: Global, know: &Know, label: &Label) -> Result<Label, NoMemory>
    ensures { IfOk result (λ l. label_of l ≡ label_under (recipe_of know.now) (label_of label.now)) }
{
    match label {
        Label::In(channel, tree) => {
            let recipe = know.recipe(alloc, tree)?;
            Ok(Label::In(*channel, recipe))
        }
        Label::Out(channel, number) => Ok(Label::Out(*channel, *number)),
    }
}

/// Names of the attacker for variables: `@1` for the first, and so on.
#[derive(Drop)]
struct FreshNames {
    variables: IndexSet<u64>,
}

impl Replacement for FreshNames {
    ghost use Rattle.dps_terms.specs.Replace.{variables_to};
    ghost use Rattle.dps_renewal.specs.Numbering.{counted_as, as_own_name};

    ghost becomes = { λ names. variables_to (counted_as as_own_name 1 names.variables.keys) };

    #[tactic(auto, using(crate::proofs::Worded::placed, crate::proofs::Worded::not_placed))]
    fn put(&self, leaf: TermLeaf, stack: &mut TermStack) -> Result<(), NoMemory> {
        let TermLeaf::Var(number) = leaf else {
            return stack.push_leaf(leaf);
        };
        match self.variables.get_index_of(&number) {
            Some(place) => match (place as u64).checked_add(1) {
                Some(number) => stack.push_leaf(TermLeaf::Public(PublicName::At(number))),
                None => Err(AllocError),
            },
            None => stack.push_leaf(leaf),
        }
    }
}
