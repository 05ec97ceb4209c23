//! Locals while a side is written out.
ghost use Rattle.std.specs.Prelude.{◌≡◌, ◌<◌, ◌≤◌, ◌++◌, vec_len, ℕ, List, take, OnOk, IfSome};
ghost use Rattle.dps_elab.specs.Expansion.{Value, value_at, value_of, values_of};
ghost use Rattle.dps_elab.specs.Locals.{in_frame, local_value, values, IsBelow};

use dps_scopes::{Use, Written};
use dps_terms::{NoMemory, TermView};
use std::alloc::AllocError;

/// What a local stands for.
#[derive(Clone, Copy)]
pub(crate) enum Local<'a> {
    /// A bound variable of the side.
    Variable(u64),
    /// A private name that `new` makes.
    Name(u64),
    /// An argument of a call: a term, with the locals of the caller.
    Argument(&'a Written, Frame),
}

/// The locals of one definition: those of the stack from `first` on and before `end`.
#[derive(Clone, Copy)]
pub(crate) struct Frame {
    pub first: usize,
    pub end: usize,
}

/// The local of the frame that has this number. What is none stands for variable 0.
pub(crate) fn local_at<'a>(stack: &[Local<'a>], frame: Frame, number: usize) -> Local<'a>
    ensures value { local_value (values stack.now) result ≡ value_at (in_frame (values stack.now) frame) number }
    ensures below { IsBelow frame.end result }
{
    if frame.end <= frame.first {
        return Local::Variable(0);
    }
    if frame.end - frame.first <= number {
        return Local::Variable(0);
    }
    let position = frame.first + number;
    if stack.len() <= position {
        return Local::Variable(0);
    }
    local_below(stack[position], position)
}

/// A local that stands at this place of the stack, by those below it alone.
fn local_below<'a>(local: Local<'a>, position: usize) -> Local<'a>
    ensures value { (below : List Value) → local_value below result ≡ local_value (take position below) local.entry }
    ensures below { (end : ℕ) → position < end → IsBelow end result }
{
    match local {
        Local::Variable(number) => Local::Variable(number),
        Local::Name(number) => Local::Name(number),
        Local::Argument(written, frame) => {
            let end = frame.end.min(position);
            let first = frame.first;
            Local::Argument(written, Frame { first, end })
        }
    }
}

/// Puts the arguments of a call onto the stack: terms over the locals of the frame.
pub(crate) fn push_arguments<'a>(
    stack: &mut Vec<Local<'a>>,
    frame: Frame,
    arguments: &'a [Written],
) -> Result<(), NoMemory>
    requires { frame.end ≤ vec_len stack.old }
    ensures pushed { OnOk result (values stack.new.items ≡ values stack.old.items ++ values_of (in_frame (values stack.old.items) frame) arguments.now) }
    ensures kept { OnOk result (take (vec_len stack.old) stack.new.items ≡ stack.old.items) }
{
    for written in arguments {
        let local = argument_of(stack.as_slice(), frame, written);
        stack.push(local)?;
    }
    Ok(())
}

/// What an argument stands for. A local alone is what it is, so that long chains of calls that hand on a local are short.
fn argument_of<'a>(stack: &[Local<'a>], frame: Frame, written: &'a Written) -> Local<'a>
    ensures { local_value (values stack.now) result ≡ value_of (in_frame (values stack.now) frame) written.now }
{
    match local_alone(written) {
        Some(number) => local_at(stack, frame, number),
        None => Local::Argument(written, frame),
    }
}

/// The local that the term is, if it is one.
fn local_alone(written: &Written) -> Option<usize>
    ensures { IfSome result (λ number. (locals : List Value) → value_of locals written.now ≡ value_at locals number) }
{
    let TermView::Var(number) = written.tree.whole().view() else {
        return None;
    };
    let [Use::Local(used)] = written.uses.as_slice() else {
        return None;
    };
    if *used as u64 == number {
        Some(*used)
    } else {
        None
    }
}
