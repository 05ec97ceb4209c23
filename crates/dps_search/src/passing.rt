//! Entries that are passed since their roots show that they can't be used.
ghost use Rattle.std.specs.Prelude.{◌≡◌, ◌<◌, ◌≤◌, ◌∷◌, ⊤, List, length, IsTrue, MatchOption};
ghost use Rattle.dps_unify.specs.Unifier.{IsNotUnifiable};
ghost use Rattle.dps_solver.specs.declared.scene.Target.{Target};
ghost use Rattle.dps_solver.specs.Search.{entry_equation};
ghost use Rattle.dps_search.specs.Code.{scene_of, branch_of};
ghost use Rattle.dps_search.specs.Tasks.{AreLater, IsNextApart};

use crate::branch::Branch;
use crate::meeting::{are_apart, value_at};
use crate::scene::Scene;
use crate::step::Step;
use crate::task::{Task, step_of};

/// Passes the next entries, at most so many, as long as the root of each one's value is another than that of the first
/// target's term, and answers how many it passed. Each is a move.
pub(crate) fn pass_apart(scene: &Scene, task: &mut Task, most: u64) -> u64
    ensures later { AreLater (scene_of scene.now) result task.old task.new }
    ensures most { result ≤ most }
{
    if task.branch.targets.is_empty() {
        return 0;
    }
    let mut count = 0;
    while count < most {
        let Some(entry) = next_apart(scene, task) else {
            return count;
        };
        task.passed = entry;
        count += 1;
    }
    count
}

/// The next way, where it is an entry whose value and the first target's term have different roots.
fn next_apart(scene: &Scene, task: &Task) -> Option<u64>
    requires { 0 < length task.now.branch.targets.items }
    ensures { MatchOption result ⊤ (λ i. IsNextApart (scene_of scene.now) (branch_of task.now.branch) task.now.branch.targets.items task.now.passed i) }
{
    let Some(Step::Use(entry)) = step_of(scene, task) else {
        return None;
    };
    if is_apart(scene, &task.branch, entry) {
        return Some(entry);
    }
    None
}

/// Whether the entry's value and the first target's term have different roots.
fn is_apart(scene: &Scene, branch: &Branch, entry: u64) -> bool
    requires { 0 < length branch.now.targets.items }
    ensures { IsTrue result → (z : Target) (rest : List Target) → branch.now.targets.items ≡ z ∷ rest → IsNotUnifiable (entry_equation (scene_of scene.now) (branch_of branch.now) z entry) }
{
    let target = &branch.targets[0];
    match value_at(&scene.values, entry) {
        Some(value) => are_apart(&branch.theta, value.whole(), target.term.whole()),
        None => false,
    }
}
