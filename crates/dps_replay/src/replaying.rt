//! Traces looked at again.
ghost use Rattle.std.specs.Prelude.{◌≡◌, ◌<◌, ◌^◌, length, map, IfOk};
ghost use Rattle.dps_branch.specs.Sides.{opposite as other_side};
ghost use Rattle.dps_process.specs.Labels.{label_of};
ghost use Rattle.dps_replay.specs.Answers.{IsReplay};
ghost use Rattle.dps_replay.specs.Ends.{HasAllEnds};

use crate::Replay;
use crate::pairing::verdict;
use dps_branch::Side;
use dps_process::laws::{
    bags_reflexive, prefixes_are_traces, traces_end_in_frames, traces_have_lawful_labels,
};
use dps_process::{Label, Problem};
use dps_semantics::{Config, Runs, runs};
use dps_static::laws::answers_decide;
use dps_terms::NoMemory;
use std::alloc::{AllocError, Global};

/// What the labels of a side come to: the first that no run of the side passes; or else an end of a run to which no end of the
/// other side looks alike, with tests that tell each of these from it, where there is one; or else a pair for each end.
///
/// Both sides run in the problem's model. The word has fewer than 2^31 labels. It fails for want of memory alone.
pub fn replay(
    alloc: Global,
    problem: &Problem,
    side: Side,
    word: &[Label],
) -> Result<Replay, NoMemory>
    requires { length word.now < 2 ^ 31 }
    ensures { IfOk result (IsReplay problem.now side (map label_of word.now)) }
{
    bags_reflexive();
    answers_decide();
    traces_end_in_frames();
    traces_have_lawful_labels();
    match runs(alloc, problem, side, word)? {
        Runs::Stuck(label) => Ok(Replay::NoRun { label }),
        Runs::Ends(ends) => {
            let others = all_ends(alloc, problem, opposite(side), word)?;
            let answer = verdict(alloc, problem.theory(), ends, &others)?;
            Ok(answer)
        }
    }
}

/// The side that a side is compared with.
fn opposite(side: Side) -> Side
    ensures { result ≡ other_side side }
{
    match side {
        Side::Left => Side::Right,
        Side::Right => Side::Left,
    }
}

/// The ends of the runs of the side with the word. There may be none.
fn all_ends(
    alloc: Global,
    problem: &Problem,
    side: Side,
    word: &[Label],
) -> Result<Vec<Config>, NoMemory>
    requires { length word.now < 2 ^ 31 }
    ensures { IfOk result (λ ends. HasAllEnds problem.now side (map label_of word.now) ends.items) }
{
    prefixes_are_traces();
    match runs(alloc, problem, side, word)? {
        Runs::Stuck(_) => Ok(Vec::new(alloc)),
        Runs::Ends(ends) => Ok(ends),
    }
}
