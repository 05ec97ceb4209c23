//! What two parts that differ force.
ghost use Rattle.std.specs.Prelude.{◌≡◌, MatchOption};
ghost use Rattle.dps_terms.specs.Seen.{seen};
ghost use Rattle.dps_terms.specs.Views.{HaveSameRoot};
ghost use Rattle.dps_unify.specs.Forced.{AreNeverEqual, IsForced};

use crate::VarOrder;
use crate::difference::Parts;
use dps_terms::{TermRef, TermView};

/// A variable, and the term that it has to become.
#[derive(Clone, Copy)]
pub(crate) struct Binding<'a> {
    pub(crate) variable: u64,
    pub(crate) term: TermRef<'a>,
}

/// The binding without which the parts do not become equal, and `None` where nothing makes them equal. Their roots
/// differ.
pub(crate) fn forced_binding<'a>(order: &VarOrder, parts: Parts<'a>) -> Option<Binding<'a>>
    requires { ¬ HaveSameRoot (seen parts.left) (seen parts.right) }
    ensures { MatchOption result (AreNeverEqual (seen parts.entry.left) (seen parts.entry.right))
        (λ b. IsForced order.now.levels.items (seen parts.entry.left) (seen parts.entry.right) b.variable (seen b.term)) }
{
    let Parts { left, right } = parts;
    match (left.view(), right.view()) {
        (TermView::Var(x), TermView::Var(y)) => {
            if order.precedes(x, y) {
                Some(Binding {
                    variable: y,
                    term: left,
                })
            } else {
                Some(Binding {
                    variable: x,
                    term: right,
                })
            }
        }
        (TermView::Var(x), _) => Some(Binding {
            variable: x,
            term: right,
        }),
        (_, TermView::Var(y)) => Some(Binding {
            variable: y,
            term: left,
        }),
        _ => None,
    }
}
