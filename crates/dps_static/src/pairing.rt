//! Recipes and their values in pairs.
ghost use Rattle.std.specs.Prelude.{◌≡◌, IfOk, length, map};
ghost use Rattle.dps_static.specs.Pairs.{ArePairsOf};

use crate::kept::Kept;
use dps_terms::{NoMemory, Term};
use std::alloc::Global;

/// The recipes, each with the value at its place.
pub(crate) fn paired(
    alloc: Global,
    recipes: &[Term],
    values: &Kept,
) -> Result<Vec<(Term, Term)>, NoMemory>
    requires { length recipes.now ≡ length values.now }
    ensures { IfOk result (λ pairs. ArePairsOf recipes.now values.now pairs.items) }
{
    let mut pairs = Vec::with_capacity(alloc, recipes.len())?;
    for index in 0..recipes.len() {
        let recipe = recipes[index].copy(alloc)?;
        let value = values.get(index).copy(alloc)?;
        pairs.push((recipe, value))?;
    }
    Ok(pairs)
}
