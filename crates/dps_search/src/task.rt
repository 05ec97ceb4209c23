//! What is still to be listed, and one turn of the search.
ghost use Rattle.std.specs.Prelude.{◌≡◌, ◌<◌, ◌∷◌, List, true, length, IfOk, OnOk};
ghost use Rattle.dps_terms.specs.Replace.{substitute};
ghost use Rattle.dps_terms.specs.Bindings.{image};
ghost use Rattle.dps_solver.specs.declared.scene.Target.{Target};
ghost use Rattle.dps_solver.specs.Scene.{Ask as Asked};
ghost use Rattle.dps_solver.specs.Search.{composed};
ghost use Rattle.dps_search.specs.Code.{scene_of, system_of, ask_of, branch_of};
ghost use Rattle.dps_search.specs.Going.{IsFollowed};
ghost use Rattle.dps_search.specs.Tasks.{IsTurn, IsNextOf, IsPassed};

use crate::branch::{Branch, compose_root, follow};
use crate::entering::enter;
use crate::finishing::finish;
use crate::scene::{Ask, Mgs, Scene};
use crate::step::{Step, next_step};
use dps_terms::NoMemory;
use std::alloc::Global;

/// A branch that is still to be listed, but for the ways through the first entries.
#[derive(Drop)]
pub(crate) struct Task {
    pub(crate) branch: Branch,
    /// How many entries are passed.
    pub(crate) passed: u64,
}

/// What a turn came to.
#[derive(Drop)]
pub(crate) enum Turn {
    /// Nothing is left of the task, and it gave a solution or none.
    Ended(Option<Mgs>),
    /// The task has moved on.
    Moved,
    /// This branch comes before what is left of the task.
    Branched(Branch),
    /// A move is to be made, and there is no room for it.
    Refused,
}

/// Ends the task or makes its next move, where there is room.
pub(crate) fn take_turn(
    alloc: Global,
    scene: &Scene,
    ask: &Ask,
    task: &mut Task,
    room: bool,
) -> Result<Turn, NoMemory>
    ensures { IfOk result (λ turn. IsTurn (scene_of scene.now) (ask_of ask.now) room task.old turn task.new) }
{
    if task.branch.targets.is_empty() {
        let found = finish(alloc, scene, ask, &task.branch)?;
        return Ok(Turn::Ended(found));
    }
    match step_of(scene, task) {
        Some(step) => {
            if room {
                move_on(alloc, scene, task, step)
            } else {
                Ok(Turn::Refused)
            }
        }
        None => Ok(Turn::Ended(None)),
    }
}

/// The next way.
pub(crate) fn step_of(scene: &Scene, task: &Task) -> Option<Step>
    requires { 0 < length task.now.branch.targets.items }
    ensures { IsNextOf (system_of scene.now) (branch_of task.now.branch) task.now.branch.targets.items task.now.passed result }
{
    let target = &task.branch.targets[0];
    let term = task.branch.theta.at_root(target.term.whole());
    next_step(scene, target.level, term, task.passed)
}

/// Goes the next way.
fn move_on(alloc: Global, scene: &Scene, task: &mut Task, step: Step) -> Result<Turn, NoMemory>
    requires there { 0 < length task.old.branch.targets.items }
    requires next { IsNextOf (system_of scene.now) (branch_of task.old.branch) task.old.branch.targets.items task.old.passed (Some step) }
    ensures { IfOk result (λ turn. (ask : Asked) → IsTurn (scene_of scene.now) ask true task.old turn task.new) }
{
    match step {
        Step::Follow(variable) => follow_variable(alloc, task, variable),
        Step::Compose => compose_term(alloc, task),
        Step::Use(entry) => pass_entry(alloc, scene, task, entry),
    }
}

/// The first target's term is the variable.
fn follow_variable(alloc: Global, task: &mut Task, variable: u64) -> Result<Turn, NoMemory>
    requires there { 0 < length task.old.branch.targets.items }
    ensures moved { IfOk result (λ turn. turn ≡ Turn.Moved) }
    ensures followed { OnOk result ((z : Target) (rest : List Target) → task.old.branch.targets.items ≡ z ∷ rest → IsFollowed (branch_of task.old.branch) z rest variable (branch_of task.new.branch)) }
    ensures none { OnOk result (task.new.passed ≡ 0) }
{
    let target = task.branch.targets.remove(0);
    follow(alloc, &mut task.branch, &target, variable)?;
    task.passed = 0;
    Ok(Turn::Moved)
}

/// The root of the first target's term is composed.
fn compose_term(alloc: Global, task: &mut Task) -> Result<Turn, NoMemory>
    requires there { 0 < length task.old.branch.targets.items }
    ensures moved { IfOk result (λ turn. turn ≡ Turn.Moved) }
    ensures composed { OnOk result ((z : Target) (rest : List Target) → task.old.branch.targets.items ≡ z ∷ rest
        → branch_of task.new.branch ≡ composed (branch_of task.old.branch) z rest (substitute (image task.old.branch.theta) z.term)) }
    ensures none { OnOk result (task.new.passed ≡ 0) }
{
    let target = task.branch.targets.remove(0);
    compose_root(alloc, &mut task.branch, &target)?;
    task.passed = 0;
    Ok(Turn::Moved)
}

/// The entry is used for the first target, and is passed.
fn pass_entry(alloc: Global, scene: &Scene, task: &mut Task, entry: u64) -> Result<Turn, NoMemory>
    requires there { 0 < length task.old.branch.targets.items }
    ensures used { IfOk result (λ turn. (z : Target) (rest : List Target) → task.old.branch.targets.items ≡ z ∷ rest → IsPassed (scene_of scene.now) (branch_of task.old.branch) z rest entry turn) }
    ensures same { OnOk result (task.new.branch ≡ task.old.branch) }
    ensures passed { OnOk result (task.new.passed ≡ entry) }
{
    let used = enter(alloc, scene, &task.branch, entry)?;
    task.passed = entry;
    match used {
        Some(branch) => Ok(Turn::Branched(branch)),
        None => Ok(Turn::Moved),
    }
}
