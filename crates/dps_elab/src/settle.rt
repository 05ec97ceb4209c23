//! What adds no node to a side: calls, new names, and single copies.
ghost use Rattle.std.specs.Prelude.{◌≡◌, ◌+◌, ◌<◌, ◌≤◌, ◌++◌, ◌∷◌, [], ℕ, List, length, vec_len, IfOk, OnOk};
ghost use Rattle.dps_scopes.specs.Body.{bodies, copies, fresh, call};
ghost use Rattle.dps_scopes.specs.Views.{shown};
ghost use Rattle.dps_elab.specs.declared.local.Local.{Local as ALocal};
ghost use Rattle.dps_elab.specs.Turns.{chain_of, IsCounted, IsTurned, IsTurn};

use crate::local::{Frame, Local, push_arguments};
use dps_scopes::{Body, BodyView, Definition, Written};
use dps_terms::NoMemory;
use std::alloc::AllocError;

/// Where a body stands: the declared private names, the definitions that it may call, and where its locals begin on the
/// stack.
#[derive(Clone, Copy)]
pub(crate) struct Scope<'a> {
    pub private_names: &'a [u32],
    pub definitions: &'a [Definition],
    pub first: usize,
}

/// A body that adds a node, with its parts.
#[derive(Clone, Copy)]
pub(crate) struct Settled<'a> {
    pub scope: Scope<'a>,
    pub view: BodyView<'a>,
}

/// The signs that join processes.
#[derive(Clone, Copy)]
pub(crate) enum Join {
    /// `|`
    ByParallel,
    /// `+`
    ByChoice,
}

/// One turn towards a body that adds a node.
#[derive(Clone, Copy)]
enum Turn<'a> {
    Further(Scope<'a>, &'a Body),
    Reached(Scope<'a>, BodyView<'a>),
}

/// The body behind calls, new names and single copies. The names and the arguments are on the stack then.
#[tactic(auto, using(crate::proofs::Turns::for_settle))]
pub(crate) fn settle<'a>(
    stack: &mut Vec<Local<'a>>,
    name: &mut u64,
    scope: Scope<'a>,
    body: &'a Body,
) -> Result<Settled<'a>, NoMemory>
    requires { scope.first ≤ vec_len stack.old }
    ensures turned { IfOk result (λ s. IsTurned scope.entry stack.old.items body.now name.old s.scope stack.new.items (shown s.view) name.new) }
    ensures counted { IfOk result (λ s. IsCounted s.view) }
{
    let mut inner = scope;
    let mut next = body;
    'turns: loop {
        match one_turn(stack, name, inner, next.view())? {
            Turn::Further(deeper, behind) => {
                inner = deeper;
                next = behind;
            }
            Turn::Reached(scope, view) => return Ok(Settled { scope, view }),
        }
    }
}

fn one_turn<'a>(
    stack: &mut Vec<Local<'a>>,
    name: &mut u64,
    scope: Scope<'a>,
    view: BodyView<'a>,
) -> Result<Turn<'a>, NoMemory>
    requires { scope.first ≤ vec_len stack.old }
    ensures { IfOk result (λ turn. IsTurn scope.entry stack.old.items (shown view.entry) name.old turn stack.new.items name.new) }
{
    match view {
        BodyView::Fresh(body) => fresh(stack, name, scope, body),
        BodyView::Copies(count, body) => Ok(one_or_more(scope, count, body)),
        BodyView::Parallel(parts) => Ok(one_or_chain(scope, Join::ByParallel, parts)),
        BodyView::Choice(parts) => Ok(one_or_chain(scope, Join::ByChoice, parts)),
        BodyView::Call(number, arguments) => call(stack, scope, number, arguments),
        _ => Ok(Turn::Reached(scope, view)),
    }
}

fn fresh<'a>(
    stack: &mut Vec<Local<'a>>,
    name: &mut u64,
    scope: Scope<'a>,
    body: &'a Body,
) -> Result<Turn<'a>, NoMemory>
    requires { scope.first ≤ vec_len stack.old }
    ensures { IfOk result (λ turn. IsTurn scope.entry stack.old.items (fresh body.now) name.old turn stack.new.items name.new) }
{
    push_name(stack, name)?;
    Ok(Turn::Further(scope, body))
}

/// Numbers a private name, which is the next local.
fn push_name(stack: &mut Vec<Local<'_>>, name: &mut u64) -> Result<(), NoMemory>
    ensures pushed { OnOk result (stack.new.items ≡ stack.old.items ++ Local.Name name.old ∷ []) }
    ensures next { OnOk result (name.new ≡ name.old + 1) }
{
    let number = *name;
    let Some(next) = number.checked_add(1) else {
        return Err(AllocError);
    };
    stack.push(Local::Name(number))?;
    *name = next;
    Ok(())
}

fn one_or_more<'a>(scope: Scope<'a>, count: u32, body: &'a Body) -> Turn<'a>
    ensures { (stack : List ALocal) (name : ℕ) → scope.entry.first ≤ length stack → IsTurn scope.entry stack (copies count body.now) name result stack name }
{
    if count <= 1 {
        Turn::Further(scope, body)
    } else {
        Turn::Reached(scope, BodyView::Copies(count, body))
    }
}

fn one_or_chain<'a>(scope: Scope<'a>, join: Join, parts: &'a [Body]) -> Turn<'a>
    ensures { (stack : List ALocal) (name : ℕ) → scope.entry.first ≤ length stack → IsTurn scope.entry stack (chain_of join (bodies parts.now)) name result stack name }
{
    match parts.split_first() {
        None => Turn::Reached(scope, BodyView::Nil),
        Some((first, rest)) => {
            if rest.is_empty() {
                Turn::Further(scope, first)
            } else {
                Turn::Reached(scope, chain_view(join, parts))
            }
        }
    }
}

fn chain_view<'a>(join: Join, parts: &'a [Body]) -> BodyView<'a>
    ensures view { shown result ≡ chain_of join (bodies parts.now) }
    ensures counted { 1 < length parts.now → IsCounted result }
{
    match join {
        Join::ByParallel => BodyView::Parallel(parts),
        Join::ByChoice => BodyView::Choice(parts),
    }
}

fn call<'a>(
    stack: &mut Vec<Local<'a>>,
    scope: Scope<'a>,
    number: usize,
    arguments: &'a [Written],
) -> Result<Turn<'a>, NoMemory>
    requires { scope.first ≤ vec_len stack.old }
    ensures { IfOk result (λ turn. (name : ℕ) → IsTurn scope.entry stack.old.items (call number arguments.now) name turn stack.new.items name) }
{
    if scope.definitions.len() <= number {
        return Ok(Turn::Reached(scope, BodyView::Nil));
    }
    let first = stack.len();
    let frame = Frame {
        first: scope.first,
        end: first,
    };
    push_arguments(stack, frame, arguments)?;
    let (definitions, rest) = scope.definitions.split_at(number);
    let inner = Scope {
        private_names: scope.private_names,
        definitions,
        first,
    };
    let definition = &rest[0];
    Ok(Turn::Further(inner, &definition.body))
}
