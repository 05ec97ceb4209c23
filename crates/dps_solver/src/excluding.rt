//! Disequations that bindings leave matched.
ghost use Rattle.std.specs.Prelude.{◌↔◌, map, IfOk, IsTrue};
ghost use Rattle.dps_terms.specs.Bindings.{image};
ghost use Rattle.dps_solver.specs.Solutions.{IsMatchedUnder};
ghost use Rattle.dps_solver.specs.Code.{disequation_of};
ghost use Rattle.dps_solver.specs.Matched.{IsExcluded, AreMatched};

use crate::Disequation;
use dps_terms::{NoMemory, Subst, Term};
use dps_unify::extend_match;
use std::alloc::Global;

/// Whether some disequation is matched under the bindings: trees for its free variables alone make each pattern the tree
/// beside it.
pub fn excluded(
    alloc: Global,
    bindings: &Subst,
    disequations: &[Disequation],
) -> Result<bool, NoMemory>
    ensures { IfOk result (λ b. IsTrue b ↔ IsExcluded (image bindings.now) (map disequation_of disequations.now)) }
{
    for disequation in disequations {
        if is_matched(alloc, bindings, disequation)? {
            return Ok(true);
        }
    }
    Ok(false)
}

/// Whether the disequation is matched under the bindings.
fn is_matched(alloc: Global, bindings: &Subst, disequation: &Disequation) -> Result<bool, NoMemory>
    ensures { IfOk result (λ b. IsTrue b ↔ IsMatchedUnder (image bindings.now) (disequation_of disequation.now)) }
{
    let mut solution = Subst::empty(alloc);
    for pair in &disequation.pairs {
        if !extends(alloc, &mut solution, bindings, &disequation.free, pair)? {
            return Ok(false);
        }
    }
    Ok(true)
}

/// Extends the solution so that the pattern under the bindings becomes the tree under them.
fn extends(
    alloc: Global,
    solution: &mut Subst,
    bindings: &Subst,
    free: &[u64],
    pair: &(Term, Term),
) -> Result<bool, NoMemory>
    ensures { IfOk result (λ b. AreMatched b (image bindings.now) free.now solution.old pair.now solution.new) }
{
    let tree = pair.0.subst(alloc, bindings)?;
    let pattern = pair.1.subst(alloc, bindings)?;
    extend_match(alloc, solution, free, pattern.whole(), tree.whole())
}
