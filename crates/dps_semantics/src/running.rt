//! The runs of a side with a word.
ghost use Rattle.std.specs.Prelude.{◌<◌, ◌^◌, [], length, map, IfOk, OnOk};
ghost use Rattle.dps_process.specs.Labels.{label_of};
ghost use Rattle.dps_semantics.specs.Settling.{AreJust, EachStandsOnce};
ghost use Rattle.dps_semantics.specs.Words.{EndsIn};
ghost use Rattle.dps_semantics.specs.Answers.{IsAnswer};
ghost use Rattle.dps_semantics.specs.Following.{AreFollowing, AddsFollowing};

use crate::acting::act;
use crate::once::each_once;
use crate::settling::settle;
use crate::{Config, Runs};
use dps_branch::Side;
use dps_process::{Label, Problem};
use dps_recipes::Frame;
use dps_terms::NoMemory;
use std::alloc::{AllocError, Global};

/// The ends of the runs of the side with the word: the settled configurations, each in some order of its parts, and none
/// twice. Their frames are those in which traces with the word end. Where there is none, it answers the number, from 1, of
/// the first label that no run passes.
///
/// The word has fewer than 2^31 labels. It fails for want of memory alone.
pub fn runs(alloc: Global, problem: &Problem, side: Side, word: &[Label]) -> Result<Runs, NoMemory>
    requires { length word.now < 2 ^ 31 }
    ensures { IfOk result (IsAnswer problem.now side (map label_of word.now)) }
{
    let mut ends = started(alloc, problem, side)?;
    for index in 0..word.len() {
        ends = following(alloc, problem, &ends, &word[index])?;
        if ends.is_empty() {
            return Ok(Runs::Stuck(index as u32 + 1));
        }
    }
    Ok(Runs::Ends(ends))
}

/// What the side settles to before the first label.
fn started(alloc: Global, problem: &Problem, side: Side) -> Result<Vec<Config>, NoMemory>
    ensures just { IfOk result (λ configs. AreJust (EndsIn problem.now side []) configs.items) }
    ensures once { IfOk result (λ configs. EachStandsOnce configs.items) }
{
    let mut parts = Vec::new(alloc);
    parts.push(problem.side(side).copy(alloc)?)?;
    let frame = Frame {
        messages: Vec::new(alloc),
    };
    settle(alloc, problem, Config { parts, frame })
}

/// The settled configurations that follow those of the list by the label, each once.
fn following(
    alloc: Global,
    problem: &Problem,
    configs: &[Config],
    label: &Label,
) -> Result<Vec<Config>, NoMemory>
    ensures just { IfOk result (λ found. AreFollowing problem.now configs.now (label_of label.now) found.items) }
    ensures once { IfOk result (λ found. EachStandsOnce found.items) }
{
    let mut found = Vec::new(alloc);
    for index in 0..configs.len() {
        add_following(alloc, problem, &configs[index], label, &mut found)?;
    }
    each_once(alloc, found)
}

/// Adds those that follow the configuration.
fn add_following(
    alloc: Global,
    problem: &Problem,
    config: &Config,
    label: &Label,
    found: &mut Vec<Config>,
) -> Result<(), NoMemory>
    ensures { OnOk result (AddsFollowing problem.now config.now (label_of label.now) found.old.items found.new.items) }
{
    let mut left = act(alloc, problem, config, label)?;
    while let Some(next) = left.pop() {
        let mut settled = settle(alloc, problem, next)?;
        found.append(&mut settled)?;
    }
    Ok(())
}
