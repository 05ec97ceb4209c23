//! Recipes of one frame in another.
ghost use Rattle.std.specs.Prelude.{IfOk};
ghost use Rattle.dps_static.specs.Telling.{IsCarried};

use dps_recipes::{Frame, value};
use dps_terms::{NoMemory, Term};
use dps_theory::Theory;
use std::alloc::Global;

/// What recipes come to in a frame.
#[derive(Drop)]
pub(crate) enum Carried {
    /// Each has a value, at the same place.
    Values(Vec<Term>),
    /// This one has none.
    Lost(Term),
}

/// The values of the recipes in the frame, or the first recipe that has none.
pub(crate) fn carry(
    alloc: Global,
    theory: &Theory,
    frame: &Frame,
    recipes: &[Term],
) -> Result<Carried, NoMemory>
    ensures { IfOk result (IsCarried theory.now frame.now recipes.now) }
{
    let mut values = Vec::with_capacity(alloc, recipes.len())?;
    for recipe in recipes {
        match value(alloc, theory, frame, recipe)? {
            Some(found) => values.push(found)?,
            None => {
                let lost = recipe.copy(alloc)?;
                return Ok(Carried::Lost(lost));
            }
        }
    }
    Ok(Carried::Values(values))
}
