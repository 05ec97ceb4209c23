//! Whether two terms may become equal, as far as it shows without a unifier.
ghost use Rattle.std.specs.Prelude.{◌≡◌, ℕ, [], ◌∷◌, ◌↔◌, false, unwrap_or, IsTrue};
ghost use Rattle.std.specs.Option.{option_copied};
ghost use Rattle.dps_terms.specs.Tree.{Tree};
ghost use Rattle.dps_terms.specs.Bindings.{image};
ghost use Rattle.dps_terms.specs.Replace.{numbered, substitute};
ghost use Rattle.dps_unify.specs.Unifier.{IsNotUnifiable};
ghost use Rattle.dps_terms.specs.Seen.{seen};
ghost use Rattle.dps_search.specs.Code.{scene_of, branch_of};
ghost use Rattle.dps_search.specs.Meetings.{AreApart, IsMeeting, IsMeetingOf};

use crate::branch::Branch;
use crate::scene::Scene;
use dps_bindings::Bindings;
use dps_solver::Target;
use dps_terms::{Term, TermRef, TermView};

/// What shows of an entry's value and a target's term.
#[derive(Clone, Copy)]
pub(crate) enum Meeting {
    /// They are equal.
    Same,
    /// Nothing makes them equal.
    Never,
    /// It does not show.
    Open,
}

/// What shows of the entry's value and the target's term, with what is put for variables.
pub(crate) fn compare_entry(scene: &Scene, branch: &Branch, target: &Target, entry: u64) -> Meeting
    ensures { IsMeetingOf (scene_of scene.now) (branch_of branch.now) target.now entry result }
{
    match value_at(&scene.values, entry) {
        Some(value) => compare(&branch.theta, value.whole(), target.term.whole()),
        None => Meeting::Open,
    }
}

/// The value with this number, counted from 1.
pub(crate) fn value_at(values: &[Term], number: u64) -> Option<&Term>
    ensures { (other : Tree) → numbered values.now number other ≡ unwrap_or (option_copied result) other }
{
    if number == 0 {
        return None;
    }
    values.get(number as usize - 1)
}

/// What shows of the two terms.
fn compare(theta: &Bindings, value: TermRef<'_>, term: TermRef<'_>) -> Meeting
    ensures { IsMeeting (image theta.now) (seen value.entry) (seen term.entry) result }
{
    if value.equals(term) {
        return Meeting::Same;
    }
    if are_apart(theta, value, term) {
        return Meeting::Never;
    }
    Meeting::Open
}

/// Whether the first nodes at which the two terms differ show that nothing makes them equal, with what is put for variables.
pub(crate) fn are_apart(theta: &Bindings, value: TermRef<'_>, term: TermRef<'_>) -> bool
    ensures { IsTrue result → IsNotUnifiable ((substitute (image theta.now) (seen value.entry), substitute (image theta.now) (seen term.entry)) ∷ []) }
{
    let count = value.node_count().min(term.node_count());
    let mut node = 0;
    while node < count {
        let left = value.subterm(node);
        let right = term.subterm(node);
        if have_other_roots(theta, left, right) {
            return true;
        }
        if !left.has_root_of(right) {
            return false;
        }
        node += 1;
    }
    false
}

/// Whether the roots of the two terms, with what is put for variables, show that nothing makes them equal.
fn have_other_roots(theta: &Bindings, value: TermRef<'_>, term: TermRef<'_>) -> bool
    ensures { IsTrue result → IsNotUnifiable ((substitute (image theta.now) (seen value.entry), substitute (image theta.now) (seen term.entry)) ∷ []) }
{
    if may_be_equal(theta.at_root(value).view(), theta.at_root(term).view()) {
        return false;
    }
    true
}

/// Whether terms with these roots may become equal when terms are put for variables.
fn may_be_equal(first: TermView, second: TermView) -> bool
    ensures { result ≡ false → AreApart first second }
{
    match (first, second) {
        (TermView::Var(_), _) => true,
        (_, TermView::Var(_)) => true,
        _ => are_same(first, second),
    }
}

fn are_same(first: TermView, second: TermView) -> bool
    ensures { IsTrue result ↔ (first ≡ second) }
{
    first == second
}
