//! Answers of traces as reports.
ghost use Rattle.std.specs.Prelude.{◌≡◌, ◌<◌, ◌^◌, length, map, string_bytes, IfOk, OnOk};
ghost use Rattle.dps_process.specs.Models.{model_of};
ghost use Rattle.dps_replay.specs.Answers.{IsReplay};
ghost use Rattle.dps_witness.specs.Models.{in_model};
ghost use Rattle.dps_witness.specs.Answers.{test_text, Reports};

use crate::model::in_model;
use dps_branch::Side;
use dps_process::{CommModel, Problem};
use dps_replay::{Replay, replay};
use dps_report::{Outcome, Text, Texts};
use dps_signature::{Signature, term_text};
use dps_static::Test;
use dps_terms::{NoMemory, Term};
use dps_trace::{ModelName, Trace};
use std::alloc::Global;

/// `value R` or `equal R S`.
fn test_text(alloc: Global, signature: &Signature, test: &Test) -> Result<Text, NoMemory>
    ensures { IfOk result (λ text. text ≡ test_text signature.now test.now) }
{
    match test {
        Test::Value(recipe) => value_text(alloc, signature, recipe),
        Test::Equal(first, second) => equal_text(alloc, signature, first, second),
    }
}

fn value_text(alloc: Global, signature: &Signature, recipe: &Term) -> Result<Text, NoMemory>
    ensures { IfOk result (λ text. text ≡ test_text signature.now (Test.Value recipe.now)) }
{
    let recipe = term_text(alloc, recipe.whole(), signature)?;
    let text = format!(in alloc; "value {recipe}")?;
    Ok(Text::of(text))
}

fn equal_text(
    alloc: Global,
    signature: &Signature,
    first: &Term,
    second: &Term,
) -> Result<Text, NoMemory>
    ensures { IfOk result (λ text. text ≡ test_text signature.now (Test.Equal first.now second.now)) }
{
    let first = term_text(alloc, first.whole(), signature)?;
    let second = term_text(alloc, second.whole(), signature)?;
    let text = format!(in alloc; "equal {first} {second}")?;
    Ok(Text::of(text))
}

/// The texts of the tests.
fn test_texts(alloc: Global, signature: &Signature, tests: &[Test]) -> Result<Texts, NoMemory>
    ensures { IfOk result (λ texts. texts ≡ map (test_text signature.now) tests.now) }
{
    let mut texts = Texts::new(alloc);
    for test in tests {
        let text = test_text(alloc, signature, test)?;
        texts.push(text)?;
    }
    Ok(texts)
}

/// What the trace comes to under the model.
pub(crate) fn answer(
    alloc: Global,
    problem: &Problem,
    model: CommModel,
    trace: &Trace,
) -> Result<Replay, NoMemory>
    requires { length trace.now.labels < 2 ^ 31 }
    ensures { IfOk result (IsReplay (in_model problem.now (model_of model)) trace.now.side trace.now.labels) }
{
    let problem = in_model(alloc, problem, model)?;
    let found = replay(alloc, &problem, trace.side, &trace.labels)?;
    Ok(found)
}

/// What is reported of the answer.
pub(crate) fn reported(
    alloc: Global,
    signature: &Signature,
    name: ModelName,
    side: Side,
    answer: &Replay,
) -> Result<Outcome, NoMemory>
    ensures { IfOk result (Reports signature.now name side answer.now) }
{
    match answer {
        Replay::NoRun { label } => Ok(Outcome::NoRun {
            model: Some(name),
            label: *label,
        }),
        Replay::Matched { .. } => Ok(Outcome::Matched {
            model: Some(name),
            side,
        }),
        Replay::Attack { tests, .. } => {
            let tests = test_texts(alloc, signature, tests)?;
            Ok(Outcome::Attack {
                model: Some(name),
                side,
                tests,
            })
        }
    }
}
