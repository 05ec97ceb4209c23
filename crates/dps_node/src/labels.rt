//! Labels with other leaves in their trees.
ghost use Rattle.std.specs.Prelude.{◌≡◌, map, IfOk};
ghost use Rattle.dps_terms.specs.Replace.{replace};
ghost use Rattle.dps_process.specs.Labels.{label_of};
ghost use Rattle.dps_node.specs.Node.{label_under};

use dps_process::Label;
use dps_terms::{NoMemory, Replacement};
use std::alloc::Global;

/// The labels with other trees in the place of the leaves of their trees.
pub(crate) fn labels_under<R: Replacement>(
    alloc: Global,
    labels: &[Label],
    by: &R,
) -> Result<Vec<Label>, NoMemory>
    ensures { IfOk result (λ v. map label_of v.items ≡ map (label_under (replace (R.becomes by.now))) (map label_of labels.now)) }
{
    let mut made = Vec::with_capacity(alloc, labels.len())?;
    for label in labels {
        let one = label_with(alloc, label, by)?;
        made.push(one)?;
    }
    Ok(made)
}

fn label_with<R: Replacement>(alloc: Global, label: &Label, by: &R) -> Result<Label, NoMemory>
    ensures { IfOk result (λ l. label_of l ≡ label_under (replace (R.becomes by.now)) (label_of label.now)) }
{
    match label {
        Label::In(channel, tree) => {
            let tree = tree.whole().replaced(alloc, by)?;
            Ok(Label::In(*channel, tree))
        }
        Label::Out(channel, number) => Ok(Label::Out(*channel, *number)),
    }
}
