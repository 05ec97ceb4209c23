//! What a part does for a label.
ghost use Rattle.std.specs.Prelude.{◌≡◌, ◌↔◌, ◌≤◌, ◌<◌, ◌^◌, length, IfOk, IfSome, MatchOption, IsTrue};
ghost use Rattle.dps_signature.specs.Signature.{IsPublic};
ghost use Rattle.dps_theory.specs.Theory.{IsAccepted};
ghost use Rattle.dps_process.specs.Labels.{label_of};
ghost use Rattle.dps_semantics.specs.Asking.{IsAsked, IsNotAsked, IsClosedAsked, MovesAs, DoesNotMove};

use crate::putting::put;
use crate::recipe::is_recipe;
use dps_process::{Label, Problem, Process, ProcessView};
use dps_recipes::{Frame, evaluate, value};
use dps_signature::Signature;
use dps_terms::{NoMemory, Term};
use dps_theory::Theory;
use std::alloc::Global;

/// What a label asks of a part.
#[derive(Drop)]
pub(crate) enum Asked {
    /// An input on the channel, of the message.
    Input(u32, Term),
    /// An output on the channel.
    Output(u32),
}

/// What a part becomes, and what it puts out.
#[derive(Drop)]
pub(crate) struct Moved {
    pub(crate) then: Process,
    pub(crate) added: Option<Term>,
}

/// How many messages the frame has.
fn message_count(frame: &Frame) -> usize
    ensures { result ≡ length frame.now }
{
    frame.messages.len()
}

/// What the label asks of a part where the frame stands, and `None` exactly where no part can show it.
pub(crate) fn what_is_asked(
    alloc: Global,
    problem: &Problem,
    frame: &Frame,
    label: &Label,
) -> Result<Option<Asked>, NoMemory>
    ensures asked { IfOk result (λ o. MatchOption o (IsNotAsked problem.now frame.now (label_of label.now)) (IsAsked problem.now frame.now (label_of label.now))) }
    ensures closed { IfOk result (λ o. IfSome o IsClosedAsked) }
    ensures accepted { IsAccepted problem.now.theory }
{
    let signature = problem.signature();
    match label {
        Label::In(channel, recipe) => {
            if !is_public(*channel, signature)
                || !is_recipe(recipe, signature, message_count(frame))
            {
                return Ok(None);
            }
            match value(alloc, problem.theory(), frame, recipe)? {
                Some(message) => Ok(Some(Asked::Input(*channel, message))),
                None => Ok(None),
            }
        }
        Label::Out(channel, number) => {
            let is_next = *number > 0 && *number as usize - 1 == message_count(frame);
            if is_next && is_public(*channel, signature) {
                return Ok(Some(Asked::Output(*channel)));
            }
            Ok(None)
        }
    }
}

/// Whether the attacker has the channel.
fn is_public(channel: u32, signature: &Signature) -> bool
    ensures { IsTrue result ↔ IsPublic signature.now channel }
{
    channel < signature.name_count() && !signature.is_private(channel)
}

/// What the part becomes where this is asked of it, and `None` exactly where it does not do so.
pub(crate) fn move_of(
    alloc: Global,
    theory: &Theory,
    part: &Process,
    asked: &Asked,
) -> Result<Option<Moved>, NoMemory>
    requires { IsClosedAsked asked.now }
    ensures { IfOk result (λ o. MatchOption o (DoesNotMove theory.now part.now asked.now) (MovesAs theory.now part.now asked.now)) }
{
    match (part.view(), asked) {
        (ProcessView::Input(channel, variable, then), Asked::Input(wanted, message)) => {
            if channel != *wanted {
                return Ok(None);
            }
            let message = message.copy(alloc)?;
            let then = put(alloc, variable, message, then)?;
            Ok(Some(Moved { then, added: None }))
        }
        (ProcessView::Output(channel, term, then), Asked::Output(wanted)) => {
            if channel != *wanted {
                return Ok(None);
            }
            match evaluate(alloc, theory, term)? {
                Some(message) => {
                    let then = then.copy(alloc)?;
                    Ok(Some(Moved {
                        then,
                        added: Some(message),
                    }))
                }
                None => Ok(None),
            }
        }
        _ => Ok(None),
    }
}
