//! Where terms first differ.
ghost use Rattle.std.specs.Prelude.{◌≡◌, ◌++◌, ◌↔◌, IsTrue, IfOk, IfSome, OnOk, MatchOption};
ghost use Rattle.std.specs.List.{zip};
ghost use Rattle.dps_terms.specs.Seen.{seen};
ghost use Rattle.dps_terms.specs.Views.{arguments, HaveSameRoot};
ghost use Rattle.dps_unify.specs.Chain.{IsChain};
ghost use Rattle.dps_unify.specs.Difference.{pairs_of, AreVariables, AreUnified, IsDifference};
ghost use Rattle.dps_unify.specs.Kept.{trees_of, IsKnown, IsKnownWith};

use crate::bindings::Bindings;
use crate::pending::Pending;
use dps_terms::{NoMemory, TermRef, TermView};

/// Two terms that have to become equal.
#[derive(Clone, Copy)]
pub(crate) struct Parts<'a> {
    pub(crate) left: TermRef<'a>,
    pub(crate) right: TermRef<'a>,
}

impl<'a> Parts<'a> {
    /// The variables, where both are.
    pub(crate) fn variables(self) -> Option<(u64, u64)>
        ensures { AreVariables (seen self.entry.left) (seen self.entry.right) result }
    {
        let TermView::Var(left) = self.left.view() else {
            return None;
        };
        let TermView::Var(right) = self.right.view() else {
            return None;
        };
        Some((left, right))
    }
}

/// Two parts of the pending pairs whose roots differ under the bindings. The pairs before are taken apart, and those behind
/// stay.
pub(crate) fn next_difference<'a>(
    bindings: &Bindings<'a>,
    pending: &mut Pending<'a>,
) -> Result<Option<Parts<'a>>, NoMemory>
    requires chain { IsChain bindings.now }
    requires kept { IsKnown bindings.now pending.old }
    ensures found { IfOk result (λ o. MatchOption o (AreUnified bindings.now (trees_of pending.old))
        (λ d. IsDifference bindings.now (trees_of pending.old) (trees_of pending.new) (seen d.left) (seen d.right))) }
    ensures kept { IfOk result (λ o. IfSome o (λ d. IsKnownWith bindings.now (seen d.left) (seen d.right) pending.new)) }
{
    while let Some(parts) = pending.pop()? {
        if let Some(difference) = pending.advance(bindings, parts)? {
            return Ok(Some(difference));
        }
    }
    Ok(None)
}

/// Adds the pairs of the arguments.
pub(crate) fn push_arguments<'a>(
    pending: &mut Vec<Parts<'a>>,
    left: TermRef<'a>,
    right: TermRef<'a>,
) -> Result<(), NoMemory>
    requires { HaveSameRoot (seen left) (seen right) }
    ensures { OnOk result (pairs_of pending.new.items ≡ pairs_of pending.old.items ++ zip (arguments (seen left.entry)) (arguments (seen right.entry))) }
{
    for index in 0..left.arity() {
        pending.push(Parts {
            left: left.argument(index),
            right: right.argument(index),
        })?;
    }
    Ok(())
}
