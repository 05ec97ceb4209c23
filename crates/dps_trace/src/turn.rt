//! Labels behind outputs.
ghost use Rattle.std.specs.Prelude.{◌≡◌, ◌<◌, ◌-◌, ◌^◌, ◌↔◌, IsTrue};
ghost use Rattle.dps_terms.specs.Kinds.{IsBuiltOf, AnySymbol};
ghost use Rattle.dps_terms.specs.Seen.{seen};
ghost use Rattle.dps_process.specs.Labels.{label_of};
ghost use Rattle.dps_trace.specs.Written.{IsInTurn, IsHandleUpTo, ShowsHandleUpTo, outputs_behind};

use dps_process::Label;
use dps_terms::{TermRef, TermView};

/// Whether the label may come behind so many outputs: an output with the next handle, an input with their handles alone.
#[tactic(auto, using(crate::proofs::Handles::for_is_in_turn))]
pub(crate) fn is_in_turn(label: &Label, outputs: u32) -> bool
    ensures { IsTrue result ↔ IsInTurn outputs (label_of label.now) }
{
    match label {
        Label::In(_, recipe) => has_handles_up_to(recipe.whole(), outputs),
        Label::Out(_, number) => u64::from(*number) == u64::from(outputs) + 1,
    }
}

/// How many outputs there are behind the label.
pub(crate) fn outputs_behind(label: &Label, outputs: u32) -> u32
    requires { outputs < 2 ^ 32 - 1 }
    ensures { result ≡ outputs_behind outputs (label_of label.now) }
{
    match label {
        Label::In(..) => outputs,
        Label::Out(..) => outputs + 1,
    }
}

/// Whether each handle in the recipe is among the first ones, so many. It goes over the nodes one by one, with no stack.
#[tactic(auto, using(crate::proofs::Handles::for_has_handles_up_to))]
fn has_handles_up_to(recipe: TermRef<'_>, most: u32) -> bool
    ensures { IsTrue result ↔ IsBuiltOf (IsHandleUpTo most) AnySymbol (seen recipe.entry) }
{
    for node in 0..recipe.node_count() {
        if !shows_handle_up_to(recipe.subterm(node).view(), most) {
            return false;
        }
    }
    true
}

/// Whether no later handle stands at the root.
fn shows_handle_up_to(view: TermView, most: u32) -> bool
    ensures { IsTrue result ↔ ShowsHandleUpTo most view }
{
    match view {
        TermView::Ax(number) => number <= most,
        _ => true,
    }
}
