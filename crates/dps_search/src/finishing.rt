//! What a branch without targets gives.
ghost use Rattle.std.specs.Prelude.{◌≡◌, ◌↔◌, All, map, is_some, if◌then◌else◌, IfOk, IsTrue};
ghost use Rattle.dps_terms.specs.Tree.{leaf, var};
ghost use Rattle.dps_terms.specs.Replace.{substitute};
ghost use Rattle.dps_terms.specs.Bindings.{image};
ghost use Rattle.dps_unify.specs.Order.{level_of};
ghost use Rattle.dps_know.specs.Know.{IsNormal};
ghost use Rattle.dps_solver.specs.declared.scene.Target.{Target};
ghost use Rattle.dps_solver.specs.Solutions.{Respects};
ghost use Rattle.dps_search.specs.Code.{scene_of, system_of, ask_of, branch_of};
ghost use Rattle.dps_search.specs.Finishing.{IsFinished};

use crate::branch::{Branch, bound_term};
use crate::scene::{Ask, Mgs, Scene};
use dps_bindings::{Bindings, level, put_in_turn, substitution};
use dps_know::is_normal;
use dps_solver::{Target, excluded};
use dps_terms::{NoMemory, Subst, Term};
use std::alloc::Global;

/// The solution of a branch that has no target left. `None` comes exactly where it does not respect the scene.
pub(crate) fn finish(
    alloc: Global,
    scene: &Scene,
    ask: &Ask,
    branch: &Branch,
) -> Result<Option<Mgs>, NoMemory>
    ensures { IfOk result (λ o. IsFinished (scene_of scene.now) (ask_of ask.now) (branch_of branch.now) o) }
{
    let trees = put_in_turn(alloc, &branch.trees)?;
    let bindings = scene_bindings(alloc, &scene.levels, &trees)?;
    if !respects(alloc, scene, &bindings)? {
        return Ok(None);
    }
    let answers = answers(alloc, &trees, &ask.targets)?;
    let theta = substitution(alloc, &branch.theta)?;
    Ok(Some(Mgs {
        bindings,
        answers,
        theta,
    }))
}

/// The trees of the variables that have a level.
fn scene_bindings(alloc: Global, levels: &[(u64, u32)], trees: &Bindings) -> Result<Subst, NoMemory>
    ensures { IfOk result (λ s. image s ≡ (λ x. if is_some (level_of levels.now x) then image trees.now x else leaf (var x))) }
{
    let mut bindings = Subst::empty(alloc);
    for index in 0..trees.len() {
        let (variable, tree) = trees.pair(index);
        if level(levels, variable).is_some() {
            let copy = tree.copy(alloc)?;
            bindings.bind(variable, copy)?;
        }
    }
    Ok(bindings)
}

/// The trees of the targets.
fn answers(alloc: Global, trees: &Bindings, targets: &[Target]) -> Result<Vec<Term>, NoMemory>
    ensures { IfOk result (λ v. v.items ≡ map (λ (z : Target). image trees.now z.name) targets.now) }
{
    let mut answers = Vec::with_capacity(alloc, targets.len())?;
    for target in targets {
        let tree = bound_term(alloc, trees, target.name)?;
        answers.push(tree)?;
    }
    Ok(answers)
}

/// Whether each label is normal and no disequation is matched, with what is bound put in.
fn respects(alloc: Global, scene: &Scene, bindings: &Subst) -> Result<bool, NoMemory>
    ensures { IfOk result (λ b. IsTrue b ↔ Respects (system_of scene.now) (image bindings.now)) }
{
    let recorded = scene.know.compositions(alloc, bindings)?;
    if !are_normal(alloc, &recorded, &scene.labels, bindings)? {
        return Ok(false);
    }
    let matched = excluded(alloc, bindings, &scene.disequations)?;
    Ok(!matched)
}

/// Whether no recorded composition stands in a label with what is bound put in.
fn are_normal(
    alloc: Global,
    recorded: &[Term],
    labels: &[Term],
    bindings: &Subst,
) -> Result<bool, NoMemory>
    ensures { IfOk result (λ b. IsTrue b ↔ All (λ t. IsNormal recorded.now (substitute (image bindings.now) t)) labels.now) }
{
    for label in labels {
        if !is_normal_under(alloc, recorded, label, bindings)? {
            return Ok(false);
        }
    }
    Ok(true)
}

fn is_normal_under(
    alloc: Global,
    recorded: &[Term],
    label: &Term,
    bindings: &Subst,
) -> Result<bool, NoMemory>
    ensures { IfOk result (λ b. IsTrue b ↔ IsNormal recorded.now (substitute (image bindings.now) label.now)) }
{
    let tree = label.subst(alloc, bindings)?;
    Ok(is_normal(recorded, &tree))
}
