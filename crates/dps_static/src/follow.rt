//! Whether counterparts follow the kept trees.
ghost use Rattle.std.specs.Prelude.{◌≡◌, ◌<◌, IfOk, MatchOption, length};
ghost use Rattle.dps_static.specs.Follows.{Follows, IsDifference};
ghost use Rattle.dps_static.specs.Passing.{RepeatsAt, ComposesAlikeAt};

use crate::build::{builds, composed, entry_at};
use crate::kept::Kept;
use dps_terms::{NoMemory, Term};
use std::alloc::{AllocError, Global};

/// Two ways that build one kept tree, and two trees from the counterparts.
#[derive(Drop)]
pub(crate) struct TwoWays {
    pub(crate) one: Term,
    pub(crate) other: Term,
}

/// The entries of two places that keep this tree with different counterparts: this place and the first. `None` where the
/// first one's counterpart is the same.
fn repeated(
    alloc: Global,
    kept: &Kept,
    counterparts: &[Term],
    index: usize,
) -> Result<Option<TwoWays>, NoMemory>
    requires lengths { length kept.now ≡ length counterparts.now }
    requires there { index < length kept.now }
    ensures { IfOk result (λ o. MatchOption o (RepeatsAt kept.now counterparts.now index) (IsDifference kept.now counterparts.now)) }
{
    match kept.place(kept.get(index)) {
        Some(first) => {
            if counterparts[first].equals(&counterparts[index]) {
                return Ok(None);
            }
            let one = entry_at(alloc, index)?;
            let other = entry_at(alloc, first)?;
            Ok(Some(TwoWays { one, other }))
        }
        None => Ok(None),
    }
}

/// The entry of this place, and a way that composes the kept tree and does not build its counterpart. `None` where the tree
/// is not composed at all, or where the way builds the counterpart too.
fn recomposed(
    alloc: Global,
    kept: &Kept,
    counterparts: &[Term],
    index: usize,
) -> Result<Option<TwoWays>, NoMemory>
    requires lengths { length kept.now ≡ length counterparts.now }
    requires there { index < length kept.now }
    ensures { IfOk result (λ o. MatchOption o (ComposesAlikeAt kept.now counterparts.now index) (IsDifference kept.now counterparts.now)) }
{
    match composed(alloc, kept, kept.get(index))? {
        Some(other) => {
            let counterpart = counterparts[index].whole();
            if builds(alloc, counterparts, other.whole(), counterpart)? {
                return Ok(None);
            }
            let one = entry_at(alloc, index)?;
            Ok(Some(TwoWays { one, other }))
        }
        None => Ok(None),
    }
}

/// A difference, and `None` exactly where the counterparts follow the kept trees.
pub(crate) fn difference(
    alloc: Global,
    kept: &Kept,
    counterparts: &[Term],
) -> Result<Option<TwoWays>, NoMemory>
    requires { length kept.now ≡ length counterparts.now }
    ensures { IfOk result (λ o. MatchOption o (Follows kept.now counterparts.now) (IsDifference kept.now counterparts.now)) }
{
    for index in 0..kept.len() {
        if let Some(ways) = repeated(alloc, kept, counterparts, index)? {
            return Ok(Some(ways));
        }
        if let Some(ways) = recomposed(alloc, kept, counterparts, index)? {
            return Ok(Some(ways));
        }
    }
    Ok(None)
}
