//! Steps that the attacker sees.
ghost use Rattle.std.specs.Prelude.{◌≡◌, ◌∷◌, ◌++◌, ◌<◌, length, IfOk, OnOk};
ghost use Rattle.dps_process.specs.Labels.{label_of};
ghost use Rattle.dps_semantics.specs.Settling.{AreNext, EachStandsOnce};
ghost use Rattle.dps_semantics.specs.Asking.{IsClosedAsked, added_by};
ghost use Rattle.dps_semantics.specs.Acting.{AreMoves, AddsMoves, IsAfter};

use crate::Config;
use crate::moving::{Asked, Moved, move_of, what_is_asked};
use crate::parts::Parts;
use crate::settling::copied;
use dps_process::{Label, Problem, Process};
use dps_recipes::Frame;
use dps_terms::{NoMemory, Term};
use std::alloc::{AllocError, Global};

/// All configurations to which this one comes by a step that shows the label, before they are settled, each in some order
/// of its parts, and none twice.
///
/// There is none exactly where no part can act so or the label's recipe has no value. It fails for want of memory alone.
pub fn act(
    alloc: Global,
    problem: &Problem,
    config: &Config,
    label: &Label,
) -> Result<Vec<Config>, NoMemory>
    ensures just { IfOk result (λ configs. AreNext problem.now config.now (label_of label.now) configs.items) }
    ensures once { IfOk result (λ configs. EachStandsOnce configs.items) }
{
    match what_is_asked(alloc, problem, &config.frame, label)? {
        Some(asked) => all_moved(alloc, problem, config, &asked),
        None => Ok(Vec::new(alloc)),
    }
}

/// The configurations in which one of the parts did what is asked. What equal parts do is kept once.
fn all_moved(
    alloc: Global,
    problem: &Problem,
    config: &Config,
    asked: &Asked,
) -> Result<Vec<Config>, NoMemory>
    requires { IsClosedAsked asked.now }
    ensures moves { IfOk result (λ configs. AreMoves problem.now.theory asked.now config.now configs.items) }
    ensures once { IfOk result (λ configs. EachStandsOnce configs.items) }
{
    let mut seen = Parts::new(alloc);
    let mut found = Vec::new(alloc);
    for index in 0..config.parts.len() {
        let known = seen.len();
        let number = seen.number(alloc, &config.parts[index])?;
        if number == known {
            add_moved(alloc, problem, config, asked, index, &mut found)?;
        }
    }
    Ok(found)
}

/// Adds the configuration in which this part did what is asked, if it does so.
fn add_moved(
    alloc: Global,
    problem: &Problem,
    config: &Config,
    asked: &Asked,
    index: usize,
    found: &mut Vec<Config>,
) -> Result<(), NoMemory>
    requires within { index < length config.now.parts }
    requires closed { IsClosedAsked asked.now }
    ensures { OnOk result (AddsMoves problem.now.theory asked.now config.now index found.old.items found.new.items) }
{
    match move_of(alloc, problem.theory(), &config.parts[index], asked)? {
        Some(moved) => {
            let after = after(alloc, config, index, moved)?;
            found.push(after)?;
            Ok(())
        }
        None => Ok(()),
    }
}

/// The configuration with what the part became in its place.
fn after(alloc: Global, config: &Config, index: usize, moved: Moved) -> Result<Config, NoMemory>
    requires { index < length config.now.parts }
    ensures { IfOk result (IsAfter config.now index moved.then (added_by moved.added)) }
{
    let mut parts = Vec::with_capacity(alloc, config.parts.len())?;
    parts.push(moved.then)?;
    add_copies(alloc, &config.parts[..index], &mut parts)?;
    add_copies(alloc, &config.parts[index + 1..], &mut parts)?;
    let frame = longer(alloc, &config.frame, moved.added)?;
    Ok(Config { parts, frame })
}

/// Adds copies of the processes.
fn add_copies(
    alloc: Global,
    processes: &[Process],
    copies: &mut Vec<Process>,
) -> Result<(), NoMemory>
    ensures { OnOk result (copies.new.items ≡ copies.old.items ++ processes.now) }
{
    for index in 0..processes.len() {
        let copy = processes[index].copy(alloc)?;
        copies.push(copy)?;
    }
    Ok(())
}

/// The frame with what was put out.
pub(crate) fn longer(alloc: Global, frame: &Frame, added: Option<Term>) -> Result<Frame, NoMemory>
    ensures { IfOk result (λ longer. longer ≡ frame.now ++ added_by added) }
{
    let mut messages = copied(alloc, &frame.messages)?;
    if let Some(message) = added {
        messages.push(message)?;
    }
    Ok(Frame { messages })
}
