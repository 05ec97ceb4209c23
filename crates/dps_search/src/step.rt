//! The next way to go on from a branch.
ghost use Rattle.std.specs.Prelude.{◌≡◌, ◌∷◌, [], ℕ, if◌then◌else◌};
ghost use Rattle.dps_terms.specs.Views.{view_of};
ghost use Rattle.dps_terms.specs.Seen.{seen};
ghost use Rattle.dps_solver.specs.Search.{compose};
ghost use Rattle.dps_search.specs.Code.{system_of};
ghost use Rattle.dps_search.specs.Ways.{composing, IsNextEntry, IsNextStep};

use crate::scene::Scene;
use dps_know::Know;
use dps_terms::{TermRef, TermView};

/// A way to go on from a branch.
#[derive(Clone, Copy, Debug, PartialEq, Eq)]
pub(crate) enum Step {
    /// The term is this variable.
    Follow(u64),
    /// The entry with this number is used.
    Use(u64),
    /// The term's root is composed.
    Compose,
}

/// The next way for a target of this level and this term, where so many entries are passed.
pub(crate) fn next_step(scene: &Scene, level: u32, term: TermRef<'_>, passed: u64) -> Option<Step>
    ensures { IsNextStep (system_of scene.now) level (seen term.entry) passed result }
{
    match term.view() {
        TermView::Var(variable) => Some(Step::Follow(variable)),
        _ => next_option(scene, level, term, passed),
    }
}

/// The same for a term that is no variable.
#[tactic(auto, using(crate::proofs::Options::used_is_next, crate::proofs::Options::composing_is_next))]
fn next_option(scene: &Scene, level: u32, term: TermRef<'_>, passed: u64) -> Option<Step>
    requires { (w : ℕ) → view_of (seen term) ≡ TermView.Var w → ⊥ }
    ensures { IsNextStep (system_of scene.now) level (seen term.entry) passed result }
{
    let place = next_entry(&scene.know, level, passed);
    if place < scene.know.entries() {
        return Some(Step::Use(place + 1));
    }
    if is_composed(scene.m, level, term) {
        return Some(Step::Compose);
    }
    None
}

/// Whether the term's root is composed at the level.
fn is_composed(m: u32, level: u32, term: TermRef<'_>) -> bool
    ensures { composing m level (seen term.entry) ≡ (if result then compose ∷ [] else []) }
{
    match term.view() {
        TermView::App(_) => true,
        TermView::Public(_) => true,
        TermView::Rigid(_) => level == m,
        _ => false,
    }
}

/// How many entries stand before the next one of at most the level, where so many are passed.
fn next_entry(know: &Know, level: u32, passed: u64) -> u64
    ensures { IsNextEntry know.now level passed result }
{
    let mut place = passed;
    while place < know.entries() {
        if know.level(place + 1) <= level {
            return place;
        }
        place += 1;
    }
    place
}
