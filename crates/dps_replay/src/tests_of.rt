//! Tests, each once.
ghost use Rattle.std.specs.Prelude.{◌≡◌, ◌↔◌, IsTrue, OnOk, Contains};
ghost use Rattle.dps_replay.specs.Collecting.{IsAdded};

use dps_static::Test;
use dps_terms::{NoMemory, Term};
use std::alloc::AllocError;

/// Whether both are one test.
fn are_one(one: &Test, other: &Test) -> bool
    ensures { IsTrue result ↔ (one.now ≡ other.now) }
{
    match one {
        Test::Value(recipe) => is_value(other, recipe),
        Test::Equal(first, second) => is_equality(other, first, second),
    }
}

/// Whether the test asks for a value of the recipe.
fn is_value(test: &Test, recipe: &Term) -> bool
    ensures { IsTrue result ↔ (test.now ≡ Test.Value recipe.now) }
{
    match test {
        Test::Value(other) => other.equals(recipe),
        Test::Equal(_, _) => false,
    }
}

/// Whether the test asks for one value of both recipes.
fn is_equality(test: &Test, first: &Term, second: &Term) -> bool
    ensures { IsTrue result ↔ (test.now ≡ Test.Equal first.now second.now) }
{
    match test {
        Test::Value(_) => false,
        Test::Equal(left, right) => left.equals(first) && right.equals(second),
    }
}

/// Whether the test stands in the list.
fn is_listed(tests: &[Test], test: &Test) -> bool
    ensures { IsTrue result ↔ Contains tests.now test.now }
{
    for listed in tests {
        if are_one(listed, test) {
            return true;
        }
    }
    false
}

/// Adds the test, where it is new.
pub(crate) fn add_test(tests: &mut Vec<Test>, test: Test) -> Result<(), NoMemory>
    ensures { OnOk result (IsAdded tests.old.items test tests.new.items) }
{
    if is_listed(tests, &test) {
        return Ok(());
    }
    tests.push(test)?;
    Ok(())
}
