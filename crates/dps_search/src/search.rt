//! The search.
ghost use Rattle.std.specs.Prelude.{◌≡◌, ◌≤◌, ◌<◌, ◌-◌, ◌+◌, ◌*◌, ◌∷◌, [], length, map, reverse, IfOk, OnOk};
ghost use Rattle.dps_terms.specs.Bindings.{image};
ghost use Rattle.dps_solver.specs.Search.{IsFoundWithin, IsSpentWithin, unbound, with_bound};
ghost use Rattle.dps_search.specs.Code.{scene_of, ask_of, branch_of, solution_seen};
ghost use Rattle.dps_search.specs.Agenda.{IsStart, IsBegin, IsAdvance, TakesMove, left_of};

use crate::branch::{Branch, add_bound};
use crate::entering::copies;
use crate::numbers::first_new;
use crate::passing::pass_apart;
use crate::scene::{Ask, Mgs, Scene, Steps, Stop};
use crate::task::{Task, Turn, take_turn};
use dps_bindings::{Bindings, Unified, nothing_given, unify};
use dps_terms::NoMemory;
use dps_unify::VarOrder;
use std::alloc::Global;

/// What is still to be listed, the first task last, and what is found.
#[derive(Drop)]
struct Search {
    agenda: Vec<Task>,
    found: Vec<Mgs>,
}

/// The most general solutions of the ask, in the order of the search.
///
/// `Stop::Spent` comes exactly where the search takes more moves than are left of the budget, and then all of it is used. It
/// returns on every scene. After want of memory some of what was left may be used.
pub fn solve(alloc: Global, scene: &Scene, ask: &Ask, steps: &mut Steps) -> Result<Vec<Mgs>, Stop>
    requires { steps.old.used ≤ steps.old.budget }
    ensures found { IfOk result (λ v. IsFoundWithin (scene_of scene.now) (ask_of ask.now) (steps.old.budget - steps.old.used) (map solution_seen v.items) (steps.new.used - steps.old.used)) }
    ensures spent { result ≡ Err Stop.Spent → IsSpentWithin (scene_of scene.now) (ask_of ask.now) (steps.old.budget - steps.old.used) }
    ensures all_used { result ≡ Err Stop.Spent → steps.new.used ≡ steps.new.budget }
    ensures no_less { steps.old.used ≤ steps.new.used }
    ensures no_more { steps.new.used ≤ steps.new.budget }
    ensures budget { steps.new.budget ≡ steps.old.budget }
{
    let mut search = begin(alloc, scene, ask)?;
    while let Some(mut task) = search.agenda.pop() {
        steps.used += pass_apart(scene, &mut task, steps.budget - steps.used);
        advance(alloc, scene, ask, &mut search, task, steps)?;
    }
    Ok(search.found)
}

/// The start of the search.
fn begin(alloc: Global, scene: &Scene, ask: &Ask) -> Result<Search, NoMemory>
    ensures { IfOk result (λ s. (s.found.items ≡ []) × IsBegin (scene_of scene.now) (ask_of ask.now) (reverse s.agenda.items)) }
{
    match first_branch(alloc, scene, ask)? {
        Some(branch) => {
            let mut agenda = Vec::with_capacity(alloc, 1)?;
            agenda.push(Task { branch, passed: 0 })?;
            Ok(Search {
                agenda,
                found: Vec::new(alloc),
            })
        }
        None => Ok(Search {
            agenda: Vec::new(alloc),
            found: Vec::new(alloc),
        }),
    }
}

/// The first branch. `None` comes exactly where nothing makes the equations true.
fn first_branch(alloc: Global, scene: &Scene, ask: &Ask) -> Result<Option<Branch>, NoMemory>
    ensures { IfOk result (λ o. IsStart (scene_of scene.now) (ask_of ask.now) o) }
{
    let levels = Vec::from_slice(alloc, &scene.levels)?;
    let order = VarOrder { levels };
    let nothing = Bindings::empty(alloc);
    match unify(alloc, &order, &nothing, &ask.equations)? {
        Some(unified) => {
            let branch = started(alloc, scene, ask, order, unified)?;
            Ok(Some(branch))
        }
        None => Ok(None),
    }
}

/// The first branch, with what the equations' unifier puts.
fn started(
    alloc: Global,
    scene: &Scene,
    ask: &Ask,
    order: VarOrder,
    unified: Unified,
) -> Result<Branch, NoMemory>
    requires { order.levels.items ≡ scene.now.levels.items }
    ensures { IfOk result (λ b. branch_of b ≡ with_bound unified.bound.items (record (unbound (scene_of scene.now) (ask_of ask.now)) { theta = image unified.theta })) }
{
    let next = first_new(scene, ask)?;
    let targets = copies(alloc, &ask.targets)?;
    let Unified { theta, bound } = unified;
    let mut branch = Branch {
        theta,
        trees: nothing_given(alloc),
        targets,
        order,
        next,
    };
    add_bound(alloc, &mut branch, &bound)?;
    Ok(branch)
}

/// Ends the task or makes its next move.
fn advance(
    alloc: Global,
    scene: &Scene,
    ask: &Ask,
    search: &mut Search,
    mut task: Task,
    steps: &mut Steps,
) -> Result<(), Stop>
    requires { steps.old.used ≤ steps.old.budget }
    ensures on { OnOk result (IsAdvance (scene_of scene.now) (ask_of ask.now) (task ∷ reverse search.old.agenda.items) search.old.found.items (reverse search.new.agenda.items) search.new.found.items (steps.new.used - steps.old.used)) }
    ensures smaller { OnOk result (left_of steps.new + length search.new.agenda.items < left_of steps.old + length search.old.agenda.items + 1) }
    ensures spent { result ≡ Err Stop.Spent → TakesMove (scene_of scene.now) (ask_of ask.now) task × (steps.new.used ≡ steps.new.budget) }
    ensures unmoved { result ≡ Err Stop.Spent → steps.new.used ≡ steps.old.used }
    ensures no_less { steps.old.used ≤ steps.new.used }
    ensures no_more { steps.new.used ≤ steps.new.budget }
    ensures budget { steps.new.budget ≡ steps.old.budget }
{
    let room = steps.used < steps.budget;
    match take_turn(alloc, scene, ask, &mut task, room)? {
        Turn::Ended(None) => Ok(()),
        Turn::Ended(Some(solution)) => {
            search.found.push(solution)?;
            Ok(())
        }
        Turn::Moved => {
            steps.used += 1;
            search.agenda.push(task)?;
            Ok(())
        }
        Turn::Branched(branch) => {
            steps.used += 1;
            search.agenda.push(task)?;
            search.agenda.push(Task { branch, passed: 0 })?;
            Ok(())
        }
        Turn::Refused => Err(Stop::Spent),
    }
}
