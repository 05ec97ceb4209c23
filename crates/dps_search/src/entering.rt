//! The next branch where an entry is the tree of the first target.
ghost use Rattle.std.specs.Prelude.{◌≡◌, ◌<◌, ◌∷◌, [], List, length, drop, IfOk};
ghost use Rattle.dps_terms.specs.Tree.{entry as entry_leaf, leaf};
ghost use Rattle.dps_terms.specs.Bindings.{image};
ghost use Rattle.dps_terms.specs.Replace.{substitute, numbered};
ghost use Rattle.dps_solver.specs.declared.scene.Target.{Target};
ghost use Rattle.dps_solver.specs.Search.{entry_equation, with_bound};
ghost use Rattle.dps_search.specs.Code.{scene_of, branch_of};
ghost use Rattle.dps_search.specs.Going.{entered};
ghost use Rattle.dps_search.specs.Tasks.{IsEntered};
ghost use Rattle.dps_search.specs.Meetings.{IsEnteredBy};

use crate::branch::{Branch, add_bound};
use crate::closed::instance;
use crate::meeting::{Meeting, compare_entry, value_at};
use crate::scene::Scene;
use dps_bindings::{Bindings, Given, Piece, Unified, unify, with_given};
use dps_solver::Target;
use dps_terms::{NoMemory, Term, TermLeaf};
use dps_unify::VarOrder;
use std::alloc::Global;
use std::slice;

/// The branch in which the entry is the tree of the first target. `None` comes exactly where the entry's value and the target's
/// term can't be made equal.
pub(crate) fn enter(
    alloc: Global,
    scene: &Scene,
    branch: &Branch,
    entry: u64,
) -> Result<Option<Branch>, NoMemory>
    requires { 0 < length branch.now.targets.items }
    ensures { IfOk result (λ o. (z : Target) (rest : List Target) → branch.now.targets.items ≡ z ∷ rest → IsEntered (scene_of scene.now) (branch_of branch.now) z rest entry o) }
{
    let target = &branch.targets[0];
    match compare_entry(scene, branch, target, entry) {
        Meeting::Never => Ok(None),
        Meeting::Same => {
            let next = enter_same(alloc, branch, target, entry)?;
            Ok(Some(next))
        }
        Meeting::Open => enter_unified(alloc, scene, branch, target, entry),
    }
}

/// The same where the entry's value is the target's term already.
fn enter_same(
    alloc: Global,
    branch: &Branch,
    target: &Target,
    entry: u64,
) -> Result<Branch, NoMemory>
    ensures { IfOk result (λ c. branch_of c ≡ entered (branch_of branch.now) target.now.name (drop 1 branch.now.targets.items) entry (image branch.now.theta)) }
{
    let theta = branch.theta.copy(alloc)?;
    enter_with(alloc, branch, target.name, entry, theta)
}

/// The same with what makes the two equal.
fn enter_unified(
    alloc: Global,
    scene: &Scene,
    branch: &Branch,
    target: &Target,
    entry: u64,
) -> Result<Option<Branch>, NoMemory>
    ensures { IfOk result (λ o. IsEnteredBy (scene_of scene.now) (branch_of branch.now) target.now (drop 1 branch.now.targets.items) entry o) }
{
    let pair = entry_pair(alloc, scene, branch, target, entry)?;
    match unify(alloc, &branch.order, &branch.theta, slice::from_ref(&pair))? {
        Some(unified) => {
            let next = with_entry(alloc, branch, target, entry, unified)?;
            Ok(Some(next))
        }
        None => Ok(None),
    }
}

/// The entry's value and the target's term, with what is put for variables.
fn entry_pair(
    alloc: Global,
    scene: &Scene,
    branch: &Branch,
    target: &Target,
    entry: u64,
) -> Result<(Term, Term), NoMemory>
    ensures { IfOk result (λ p. p ∷ [] ≡ entry_equation (scene_of scene.now) (branch_of branch.now) target.now entry) }
{
    let value = entry_value(alloc, &scene.values, &branch.theta, entry)?;
    let term = instance(alloc, &branch.theta, target.term.whole())?;
    Ok((value, term))
}

/// The value of the entry with this number, with what is put for variables.
fn entry_value(
    alloc: Global,
    values: &[Term],
    theta: &Bindings,
    entry: u64,
) -> Result<Term, NoMemory>
    ensures { IfOk result (λ t. t ≡ substitute (image theta.now) (numbered values.now entry (leaf (entry_leaf entry)))) }
{
    match value_at(values, entry) {
        Some(value) => instance(alloc, theta, value.whole()),
        None => Term::entry(alloc, entry),
    }
}

/// The branch with the entry as the tree of the first target, which this is, and with what the unifier puts.
fn with_entry(
    alloc: Global,
    branch: &Branch,
    target: &Target,
    entry: u64,
    unified: Unified,
) -> Result<Branch, NoMemory>
    ensures { IfOk result (λ c. branch_of c ≡ with_bound unified.bound.items (entered (branch_of branch.now) target.now.name (drop 1 branch.now.targets.items) entry (image unified.theta))) }
{
    let Unified { theta, bound } = unified;
    let mut next = enter_with(alloc, branch, target.name, entry, theta)?;
    add_bound(alloc, &mut next, &bound)?;
    Ok(next)
}

/// The same branch without its first target, which has this name, with the entry as its tree.
fn enter_with(
    alloc: Global,
    branch: &Branch,
    name: u64,
    entry: u64,
    theta: Bindings,
) -> Result<Branch, NoMemory>
    ensures { IfOk result (λ c. branch_of c ≡ entered (branch_of branch.now) name (drop 1 branch.now.targets.items) entry (image theta)) }
{
    let piece = Piece::Leaf(TermLeaf::Entry(entry));
    let trees = with_given(
        alloc,
        &branch.trees,
        Given {
            variable: name,
            piece,
        },
    )?;
    let targets = copies(alloc, behind_first(&branch.targets))?;
    let levels = Vec::from_slice(alloc, &branch.order.levels)?;
    Ok(Branch {
        theta,
        trees,
        targets,
        order: VarOrder { levels },
        next: branch.next,
    })
}

/// All targets but the first.
fn behind_first(targets: &[Target]) -> &[Target]
    ensures { result.now ≡ drop 1 targets.now }
{
    match targets.split_first() {
        Some((_, rest)) => rest,
        None => targets,
    }
}

pub(crate) fn copies(alloc: Global, targets: &[Target]) -> Result<Vec<Target>, NoMemory>
    ensures { IfOk result (λ v. v.items ≡ targets.now) }
{
    let mut made = Vec::with_capacity(alloc, targets.len())?;
    for target in targets {
        let copy = copy_of(alloc, target)?;
        made.push(copy)?;
    }
    Ok(made)
}

fn copy_of(alloc: Global, target: &Target) -> Result<Target, NoMemory>
    ensures { IfOk result (λ z. z ≡ target.now) }
{
    let term = target.term.copy(alloc)?;
    Ok(Target {
        name: target.name,
        level: target.level,
        term,
    })
}
