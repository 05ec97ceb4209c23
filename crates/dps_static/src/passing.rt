//! Whether the counterparts give what the rules give over the kept trees.
ghost use Rattle.std.specs.Prelude.{◌≡◌, IfOk, MatchOption, Contains, length};
ghost use Rattle.dps_static.specs.Telling.{Passes, AllUsesPass, IsUseTest, IsTestOfUses, AllPass, IsTold};

use crate::Test;
use crate::build::builds;
use crate::expand::{expanded, question};
use crate::follow::difference;
use crate::naming::{named_recipe, new_names};
use crate::saturation::Knowledge;
use crate::uses::RuleUse;
use dps_recipes::evaluate;
use dps_terms::{NoMemory, Term};
use dps_theory::Theory;
use std::alloc::Global;

/// A test of this use of a rule, and `None` exactly where over the counterparts the left way evaluates to what the right
/// way builds.
fn use_test(
    alloc: Global,
    theory: &Theory,
    recipes: &[Term],
    counterparts: &[Term],
    one: &RuleUse,
) -> Result<Option<Test>, NoMemory>
    ensures { IfOk result (λ o. MatchOption o (Passes theory.now counterparts.now one.now) (IsUseTest theory.now recipes.now counterparts.now one.now)) }
{
    let left = expanded(alloc, counterparts, one.left.whole())?;
    match evaluate(alloc, theory, &left)? {
        Some(value) => {
            let same = builds(alloc, counterparts, one.right.whole(), value.whole())?;
            if same {
                return Ok(None);
            }
            let right = expanded(alloc, counterparts, one.right.whole())?;
            let names = new_names(alloc, left.whole(), right.whole())?;
            let first = named_recipe(alloc, recipes, &names, one.left.whole())?;
            let second = named_recipe(alloc, recipes, &names, one.right.whole())?;
            Ok(Some(Test::Equal(first, second)))
        }
        None => {
            let right = expanded(alloc, counterparts, one.right.whole())?;
            let names = new_names(alloc, left.whole(), right.whole())?;
            let recipe = named_recipe(alloc, recipes, &names, one.left.whole())?;
            Ok(Some(Test::Value(recipe)))
        }
    }
}

/// A test of one of the uses, and `None` exactly where each passes.
fn uses_test(
    alloc: Global,
    theory: &Theory,
    recipes: &[Term],
    counterparts: &[Term],
    uses: &[RuleUse],
) -> Result<Option<Test>, NoMemory>
    ensures { IfOk result (λ o. MatchOption o (AllUsesPass theory.now counterparts.now uses.now) (IsTestOfUses theory.now recipes.now counterparts.now uses.now)) }
{
    for one in uses {
        if let Some(test) = use_test(alloc, theory, recipes, counterparts, one)? {
            return Ok(Some(test));
        }
    }
    Ok(None)
}

/// A test that the counterparts fail, and `None` exactly where they follow the kept trees and each use passes.
pub(crate) fn told(
    alloc: Global,
    theory: &Theory,
    knowledge: &Knowledge,
    counterparts: &[Term],
) -> Result<Option<Test>, NoMemory>
    requires { length knowledge.now.kept ≡ length counterparts.now }
    ensures { IfOk result (λ o. MatchOption o (AllPass theory.now knowledge.now.kept counterparts.now knowledge.now.uses.items) (IsTold theory.now knowledge.now.recipes.items knowledge.now.kept counterparts.now knowledge.now.uses.items)) }
{
    if let Some(ways) = difference(alloc, &knowledge.kept, counterparts)? {
        let test = question(alloc, &knowledge.recipes, &ways)?;
        return Ok(Some(test));
    }
    let found = uses_test(
        alloc,
        theory,
        &knowledge.recipes,
        counterparts,
        &knowledge.uses,
    )?;
    Ok(found)
}
