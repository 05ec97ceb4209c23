//! Outcomes of texts.
ghost use Rattle.std.specs.Prelude.{◌≡◌, ◌++◌, ◌∷◌, ℕ, List, Option, All, IfOk, IfSome, IfNone, IsSomeAnd, IsTrue, ◌↔◌, Some, codes};
ghost use Rattle.dps_branch.specs.declared.Side.{Side};
ghost use Rattle.dps_trace.specs.declared.model.ModelName.{ModelName};
ghost use Rattle.dps_trace.specs.Text.{line};
ghost use Rattle.dps_report.specs.declared.outcome.Outcome.{Outcome};
ghost use Rattle.dps_report.specs.declared.results.ResultName.{ResultName};
ghost use Rattle.dps_report.specs.declared.results.ResultName.TheVariants as results;
ghost use Rattle.dps_report.specs.declared.format.Format.{Format};
ghost use Rattle.dps_report.specs.declared.format.Format.TheVariants.{Second};
ghost use Rattle.dps_report.specs.Outcomes.{IsFitting, Names, HasPath, IsTest, IsTestText, IsWord, EndsLine, HasTraceLines};
ghost use Rattle.dps_report.specs.Reports.{IsReport, first_line, if_named, result_text};
ghost use Rattle.dps_report.specs.Finding.{FindsResult, FindsOutcome, FindsTests, FindsListedTests};

use crate::fields::{read_field, read_number, read_place, read_short, read_text};
use crate::printing::{text, text_in};
use crate::results::{ResultName, result_named};
use crate::{Format, Outcome, StopName, Text, Texts};
use dps_path::read_path;
use dps_trace::{ModelName, behind, cut, read_heading, read_model_line, read_side_line};
use std::alloc::{AllocError, Global};

/// The outcome of which the bytes are the text, in either format. `None` exactly where they are no outcome's text.
///
/// It takes time by the length of the bytes, and fails for want of memory alone.
#[tactic(auto, using(crate::proofs::ReportRead::for_read_report))]
pub fn read_report(alloc: Global, bytes: &[u8]) -> Result<Option<Outcome>, AllocError>
    ensures found { IfOk result (λ found. IfSome found (λ outcome. IsReport outcome bytes.now)) }
    ensures only { (outcome : Outcome) → HasPath outcome → IsReport outcome bytes.now → IfOk result (λ found. found ≡ Some outcome) }
{
    let Some((format, rest)) = read_format(bytes) else {
        return Ok(None);
    };
    let Some(outcome) = outcome_like(alloc, format, rest)? else {
        return Ok(None);
    };
    let printed = text_in(alloc, format, &outcome)?;
    if printed.bytes() == bytes {
        Ok(Some(outcome))
    } else {
        Ok(None)
    }
}

/// The outcome that is read of an outcome's text in format 2: the same.
///
/// Conditions: it names its model where it has one, its numbers are below the bounds of texts, and its parts are texts of
/// their kinds. It fails for want of memory alone.
#[tactic(auto, using(crate::proofs::ReportRead::printed_again))]
pub fn read_again(alloc: Global, outcome: &Outcome) -> Result<Option<Outcome>, AllocError>
    requires fitting { IsFitting Second outcome.now }
    requires path { HasPath outcome.now }
    ensures { IfOk result (λ found. found ≡ Some outcome.now) }
{
    let printed = text(alloc, outcome)?;
    let found = read_report(alloc, printed.bytes())?;
    Ok(found)
}

/// The format of the first line, and what comes behind.
#[tactic(auto, using(crate::proofs::ReportRead::for_read_format))]
fn read_format(bytes: &[u8]) -> Option<(Format, &[u8])>
    ensures { (format : Format) (rest : List ℕ) → bytes.now ≡ line (first_line format) rest → IsSomeAnd result (λ p. (p.0 ≡ format) × (p.1.now ≡ rest)) }
{
    if let Some(rest) = behind(bytes, b"report 1\n") {
        return Some((Format::First, rest));
    }
    if let Some(rest) = behind(bytes, b"report 2\n") {
        return Some((Format::Second, rest));
    }
    None
}

/// The outcome of which these may be the lines behind the first.
#[tactic(auto, using(crate::proofs::ReportRead::for_outcome_like))]
fn outcome_like(alloc: Global, format: Format, bytes: &[u8]) -> Result<Option<Outcome>, AllocError>
    ensures { IfOk result (FindsOutcome format bytes.now) }
{
    let Some((name, rest)) = read_result(bytes) else {
        return Ok(None);
    };
    result_like(alloc, format, name, rest)
}

/// The name of the result's line, and what comes behind.
#[tactic(auto, using(crate::proofs::ReportRead::for_read_result))]
fn read_result(bytes: &[u8]) -> Option<(ResultName, &[u8])>
    ensures { (name : ResultName) (rest : List ℕ) → bytes.now ≡ codes "result: " ++ line (result_text name) rest → IsSomeAnd result (λ p. (p.0 ≡ name) × (p.1.now ≡ rest)) }
{
    let Some((text, rest)) = read_field(bytes, b"result: ") else {
        return None;
    };
    match result_named(text) {
        Some(name) => Some((name, rest)),
        None => None,
    }
}

/// The outcome with this result of which these may be the lines behind.
fn result_like(
    alloc: Global,
    format: Format,
    name: ResultName,
    bytes: &[u8],
) -> Result<Option<Outcome>, AllocError>
    ensures { IfOk result (FindsResult format name bytes.now) }
{
    match name {
        ResultName::Equivalent => Ok(equivalent_like(format, bytes)),
        ResultName::NotEquivalent => not_equivalent_like(alloc, format, bytes),
        ResultName::Spent => spent_like(alloc, format, bytes),
        ResultName::Refused => refused_like(alloc, format, bytes),
        ResultName::Stopped(name) => Ok(stopped_like(format, name, bytes)),
        ResultName::TheoryAccepted => Ok(accepted_like(format, bytes)),
        ResultName::Attack => attack_like(alloc, format, bytes),
        ResultName::Matched => Ok(matched_like(format, bytes)),
        ResultName::NoRun => Ok(no_run_like(format, bytes)),
        ResultName::NoMemory => Ok(no_memory_like(format, bytes)),
    }
}

/// The model, where the format names it, and what comes behind.
#[tactic(auto, using(crate::proofs::ReportRead::for_read_named))]
fn read_named(format: Format, bytes: &[u8]) -> Option<(Option<ModelName>, &[u8])>
    ensures names { IfSome result (λ p. Names format p.0) }
    ensures only { (model : Option ModelName) (rest : List ℕ) → Names format model → bytes.now ≡ if_named model rest → IsSomeAnd result (λ p. (p.0 ≡ model) × (p.1.now ≡ rest)) }
{
    match format {
        Format::First => Some((None, bytes)),
        Format::Second => match read_model_line(bytes) {
            Some((model, rest)) => Some((Some(model), rest)),
            None => None,
        },
    }
}

#[tactic(auto, using(crate::proofs::ShortRead::for_equivalent_like))]
fn equivalent_like(format: Format, bytes: &[u8]) -> Option<Outcome>
    ensures { FindsResult format results.Equivalent bytes.now result }
{
    match read_named(format, bytes) {
        Some((model, _)) => Some(Outcome::Equivalent { model }),
        None => None,
    }
}

#[tactic(auto, using(crate::proofs::ShortRead::for_stopped_like))]
fn stopped_like(format: Format, name: StopName, bytes: &[u8]) -> Option<Outcome>
    ensures { FindsResult format (results.Stopped name) bytes.now result }
{
    let _format = format;
    match read_short(bytes, b"word: ") {
        Some((word, _)) => Some(Outcome::Stopped { name, word }),
        None => None,
    }
}

#[tactic(auto, using(crate::proofs::ShortRead::for_accepted_like))]
fn accepted_like(format: Format, bytes: &[u8]) -> Option<Outcome>
    ensures { FindsResult format results.TheoryAccepted bytes.now result }
{
    let _format = format;
    match read_short(bytes, b"rules: ") {
        Some((rules, _)) => Some(Outcome::TheoryAccepted { rules }),
        None => None,
    }
}

#[tactic(auto, using(crate::proofs::ShortRead::for_no_memory_like))]
fn no_memory_like(format: Format, bytes: &[u8]) -> Option<Outcome>
    ensures { FindsResult format results.NoMemory bytes.now result }
{
    let _format = format;
    let _bytes = bytes;
    Some(Outcome::NoMemory)
}

#[tactic(auto, using(crate::proofs::ShortRead::for_matched_like))]
fn matched_like(format: Format, bytes: &[u8]) -> Option<Outcome>
    ensures { FindsResult format results.Matched bytes.now result }
{
    let Some((model, rest)) = read_named(format, bytes) else {
        return None;
    };
    match read_side_line(rest) {
        Some((side, _)) => Some(Outcome::Matched { model, side }),
        None => None,
    }
}

#[tactic(auto, using(crate::proofs::ShortRead::for_no_run_like))]
fn no_run_like(format: Format, bytes: &[u8]) -> Option<Outcome>
    ensures { FindsResult format results.NoRun bytes.now result }
{
    let Some((model, rest)) = read_named(format, bytes) else {
        return None;
    };
    match read_short(rest, b"label: ") {
        Some((label, _)) => Some(Outcome::NoRun { model, label }),
        None => None,
    }
}

#[tactic(auto, using(crate::proofs::LongRead::for_spent_like))]
fn spent_like(alloc: Global, format: Format, bytes: &[u8]) -> Result<Option<Outcome>, AllocError>
    ensures { IfOk result (FindsResult format results.Spent bytes.now) }
{
    let Some((model, rest)) = read_named(format, bytes) else {
        return Ok(None);
    };
    let Some((node, rest)) = read_field(rest, b"node: ") else {
        return Ok(None);
    };
    let Some((steps, _)) = read_number(rest, b"steps: ") else {
        return Ok(None);
    };
    match read_path(alloc, node)? {
        Some(node) => Ok(Some(Outcome::Spent { model, node, steps })),
        None => Ok(None),
    }
}

/// The trace's text is the rest of the report.
#[tactic(auto, using(crate::proofs::LongRead::for_not_equivalent_like))]
fn not_equivalent_like(
    alloc: Global,
    format: Format,
    bytes: &[u8],
) -> Result<Option<Outcome>, AllocError>
    ensures { IfOk result (FindsResult format results.NotEquivalent bytes.now) }
{
    let Some((node, trace)) = read_field(bytes, b"node: ") else {
        return Ok(None);
    };
    let Some(model) = model_of_trace(format, trace) else {
        return Ok(None);
    };
    let Some(node) = read_path(alloc, node)? else {
        return Ok(None);
    };
    match read_text(alloc, trace)? {
        Some(trace) => Ok(Some(Outcome::NotEquivalent { model, node, trace })),
        None => Ok(None),
    }
}

/// The model that the trace's text names, where it is one of this format, and its last line is ended.
#[tactic(auto, using(crate::proofs::LongRead::for_model_of_trace))]
fn model_of_trace(format: Format, trace: &[u8]) -> Option<Option<ModelName>>
    ensures found { IfSome result (λ model. Names format model × HasTraceLines model trace.now) }
    ensures only { (model : Option ModelName) → Names format model → HasTraceLines model trace.now → result ≡ Some model }
{
    let Ok(heading) = read_heading(trace) else {
        return None;
    };
    if !is_of_format(format, heading.model) || !ends_line(trace) {
        return None;
    }
    Some(heading.model)
}

/// Whether the format names a model where there is one.
fn is_of_format(format: Format, model: Option<ModelName>) -> bool
    ensures { IsTrue result ↔ Names format model }
{
    match format {
        Format::First => model.is_none(),
        Format::Second => model.is_some(),
    }
}

/// Whether the last byte is a newline.
#[tactic(auto, using(crate::proofs::LastByte::for_ends_line))]
fn ends_line(text: &[u8]) -> bool
    ensures { IsTrue result ↔ EndsLine text.now }
{
    match text.split_last() {
        Some((last, _)) => *last == b'\n',
        None => false,
    }
}

#[tactic(auto, using(crate::proofs::RefusedRead::for_refused_like))]
fn refused_like(alloc: Global, format: Format, bytes: &[u8]) -> Result<Option<Outcome>, AllocError>
    ensures { IfOk result (FindsResult format results.Refused bytes.now) }
{
    let _format = format;
    let Some((file, rest)) = read_short(bytes, b"file: ") else {
        return Ok(None);
    };
    let Some((line, column, rest)) = read_place(rest) else {
        return Ok(None);
    };
    let Some((cause, _)) = read_field(rest, b"cause: ") else {
        return Ok(None);
    };
    match read_text(alloc, cause)? {
        Some(cause) => Ok(Some(Outcome::Refused {
            file,
            line,
            column,
            cause,
        })),
        None => Ok(None),
    }
}

#[tactic(auto, using(crate::proofs::TestsRead::for_attack_like))]
fn attack_like(alloc: Global, format: Format, bytes: &[u8]) -> Result<Option<Outcome>, AllocError>
    ensures { IfOk result (FindsResult format results.Attack bytes.now) }
{
    let Some((model, rest)) = read_named(format, bytes) else {
        return Ok(None);
    };
    let Some((side, rest)) = read_side_line(rest) else {
        return Ok(None);
    };
    match tests_like(alloc, format, rest)? {
        Some(tests) => Ok(Some(Outcome::Attack { model, side, tests })),
        None => Ok(None),
    }
}

/// The tests of an attack. Their number is not looked at: the text of the outcome will tell whether it is right.
#[tactic(auto, using(crate::proofs::TestsRead::for_tests_like))]
fn tests_like(alloc: Global, format: Format, bytes: &[u8]) -> Result<Option<Texts>, AllocError>
    ensures { IfOk result (FindsListedTests format bytes.now) }
{
    match format {
        Format::First => Ok(Some(Texts::new(alloc))),
        Format::Second => match read_number(bytes, b"tests: ") {
            Some((_, rest)) => {
                let tests = read_tests(alloc, rest)?;
                Ok(tests)
            }
            None => Ok(None),
        },
    }
}

#[tactic(auto, using(crate::proofs::TestsRead::for_read_tests))]
fn read_tests(alloc: Global, bytes: &[u8]) -> Result<Option<Texts>, AllocError>
    ensures { IfOk result (FindsTests bytes.now) }
{
    let mut tests = Texts::new(alloc);
    let mut rest = bytes;
    'tests: while !rest.is_empty() {
        let Some((test, behind)) = read_field(rest, b"test: ") else {
            return Ok(None);
        };
        let Some(text) = read_test(alloc, test)? else {
            return Ok(None);
        };
        tests.push(text)?;
        rest = behind;
    }
    Ok(Some(tests))
}

/// The bytes as the text of a test.
fn read_test(alloc: Global, bytes: &[u8]) -> Result<Option<Text>, AllocError>
    ensures found { IfOk result (λ found. IfSome found (λ text. (text ≡ bytes.now) × IsTestText bytes.now)) }
    ensures only { IsTestText bytes.now → IfOk result (λ found. found ≡ Some bytes.now) }
{
    if !is_test(bytes) {
        return Ok(None);
    }
    match read_text(alloc, bytes)? {
        Some(text) => Ok(Some(text)),
        None => Ok(None),
    }
}

/// `value R` or `equal R S`.
fn is_test(test: &[u8]) -> bool
    ensures { IsTrue result ↔ IsTest test.now }
{
    if let Some(recipe) = behind(test, b"value ") {
        return is_word(recipe);
    }
    let Some(recipes) = behind(test, b"equal ") else {
        return false;
    };
    match cut(b' ', recipes) {
        Some((first, second)) => is_word(first) && is_word(second),
        None => false,
    }
}

/// Not empty, and without a blank and a newline.
#[tactic(auto, using(crate::proofs::TestsRead::for_is_word))]
fn is_word(text: &[u8]) -> bool
    ensures { IsTrue result ↔ IsWord text.now }
{
    if text.is_empty() {
        return false;
    }
    if cut(b' ', text).is_some() {
        return false;
    }
    cut(b'\n', text).is_none()
}
