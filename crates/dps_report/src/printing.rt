//! The text of an outcome.
ghost use Rattle.std.specs.Prelude.{◌≡◌, ◌≤◌, ◌+◌, ◌++◌, ◌∷◌, [], ℕ, length, string_bytes, drop, codes, IfOk, OnOk, IsErr, Some, None, Option};
ghost use Rattle.dps_trace.specs.Text.{line, side_line, model_line, model_text};
ghost use Rattle.dps_report.specs.declared.format.Format.TheVariants.{Second};
ghost use Rattle.dps_report.specs.declared.outcome.Outcome.TheVariants as outcomes;
ghost use Rattle.std.specs.Fmt.{decimal};
ghost use Rattle.dps_report.specs.Reports.{report_text, result_text, text_bytes, first_line, if_named, field, each_test, NeedsMemory};

use crate::results::ResultName;
use crate::{Format, Outcome, StopName, Texts};
use arrayvec::ArrayString;
use dps_branch::Side;
use dps_path::Path;
use dps_trace::ModelName;
use itoa::Buffer;
use std::alloc::{AllocError, Global};

/// The text where there was no memory.
pub const MEMORY_TEXT: &[u8] = b"report 2\nresult: no memory\n";

/// A text without a part of unknown length, which takes no memory.
pub type ShortText = ArrayString<96>;

/// The text of a report.
#[derive(Drop)]
pub enum ReportText {
    Short(ShortText),
    Long(String),
}

impl ReportText {
    /// The bytes of the text.
    pub fn bytes(&self) -> &[u8]
        ensures { result.now ≡ text_bytes self.now }
    {
        match self {
            ReportText::Short(text) => text.as_str().as_bytes(),
            ReportText::Long(text) => text.as_bytes(),
        }
    }
}

fn name_of_side(side: Side) -> &'static str
    ensures text { codes "side: " ++ result.now ≡ side_line side }
    ensures short { length result.now ≤ 5 }
{
    match side {
        Side::Left => "left",
        Side::Right => "right",
    }
}

fn first_line(format: Format) -> &'static str
    ensures text { result.now ≡ first_line format }
    ensures short { length result.now ≤ 8 }
{
    match format {
        Format::First => "report 1",
        Format::Second => "report 2",
    }
}

/// The line of the model, and nothing where there is none.
fn model_line(model: Option<ModelName>) -> &'static str
    ensures text { result.now ≡ if_named model [] }
    ensures short { length result.now ≤ 17 }
{
    match model {
        None => "",
        Some(ModelName::Private) => "model: private\n",
        Some(ModelName::Classic) => "model: classic\n",
        Some(ModelName::Eavesdrop) => "model: eavesdrop\n",
    }
}

/// The text that begins with the first lines: the format, and the name of the result.
fn begun(format: Format, name: ResultName) -> ShortText
    ensures text { result.bytes ≡ line (first_line format) (field (codes "result") (result_text name) []) }
    ensures short { length result.bytes ≤ 33 }
{
    let mut text = ShortText::new();
    text.push_str(first_line(format));
    text.push_str("\nresult: ");
    text.push_str(name.text());
    text.push_str("\n");
    text
}

/// Writes a word and a number on a line.
fn write_number(text: &mut ShortText, word: &'static str, number: u32)
    requires { length text.old.bytes + length word.now ≤ 80 }
    ensures { text.new.bytes ≡ text.old.bytes ++ field word.now (decimal number) [] }
{
    let mut digits = Buffer::new();
    text.push_str(word);
    text.push_str(": ");
    text.push_str(digits.format(number));
    text.push_str("\n");
}

/// Writes the side's line.
fn write_side(text: &mut ShortText, side: Side)
    requires { length text.old.bytes ≤ 80 }
    ensures { text.new.bytes ≡ text.old.bytes ++ line (side_line side) [] }
{
    text.push_str("side: ");
    text.push_str(name_of_side(side));
    text.push_str("\n");
}

fn named(format: Format, name: ResultName, model: Option<ModelName>) -> ShortText
    ensures text { result.bytes ≡ line (first_line format) (field (codes "result") (result_text name) (if_named model [])) }
    ensures short { length result.bytes ≤ 50 }
{
    let mut text = begun(format, name);
    text.push_str(model_line(model));
    text
}

fn stopped(format: Format, name: StopName, word: u32) -> ShortText
    ensures { result.bytes ≡ report_text format (outcomes.Stopped name word) }
{
    let mut text = begun(format, ResultName::Stopped(name));
    write_number(&mut text, "word", word);
    text
}

fn accepted(format: Format, rules: u32) -> ShortText
    ensures { result.bytes ≡ report_text format (outcomes.TheoryAccepted rules) }
{
    let mut text = begun(format, ResultName::TheoryAccepted);
    write_number(&mut text, "rules", rules);
    text
}

fn matched(format: Format, model: Option<ModelName>, side: Side) -> ShortText
    ensures { result.bytes ≡ report_text format (outcomes.Matched model side) }
{
    let mut text = named(format, ResultName::Matched, model);
    write_side(&mut text, side);
    text
}

fn no_run(format: Format, model: Option<ModelName>, label: u32) -> ShortText
    ensures { result.bytes ≡ report_text format (outcomes.NoRun model label) }
{
    let mut text = named(format, ResultName::NoRun, model);
    write_number(&mut text, "label", label);
    text
}

/// The text where the outcome was spent at the node.
fn spent(
    alloc: Global,
    format: Format,
    model: Option<ModelName>,
    node: &Path,
    steps: u64,
) -> Result<String, AllocError>
    ensures { IfOk result (λ text. string_bytes text ≡ report_text format (outcomes.Spent model node.now steps)) }
{
    let node = node.text(alloc)?;
    let head = first_line(format);
    let model = model_line(model);
    let text = format!(in alloc; "{head}\nresult: spent\n{model}node: {node}\nsteps: {steps}\n")?;
    Ok(text)
}

/// The text of an attack that was replayed.
fn attack(
    alloc: Global,
    format: Format,
    model: Option<ModelName>,
    side: Side,
    tests: &Texts,
) -> Result<String, AllocError>
    ensures { IfOk result (λ text. string_bytes text ≡ report_text format (outcomes.Attack model side tests.now)) }
{
    let head = first_line(format);
    let line = model_line(model);
    let side = name_of_side(side);
    let mut text = format!(in alloc; "{head}\nresult: attack\n{line}side: {side}\n")?;
    if model.is_some() {
        write_tests(&mut text, tests)?;
    }
    Ok(text)
}

/// Writes how many tests there are, and the tests.
fn write_tests(text: &mut String, tests: &Texts) -> Result<(), AllocError>
    ensures { OnOk result (string_bytes text.new ≡ string_bytes text.old ++ field (codes "tests") (decimal (length tests.now)) (each_test tests.now)) }
{
    let tests = tests.as_slice();
    let count = tests.len();
    write!(text, "tests: {count}\n")?;
    for test in tests {
        text.push_str("test: ")?;
        text.push_str(test.as_str())?;
        text.push_str("\n")?;
    }
    Ok(())
}

/// The text of the outcome in this format. An attack, a spent budget, a replayed attack and a refused file have texts that
/// take memory; no other has.
pub(crate) fn text_in(
    alloc: Global,
    format: Format,
    outcome: &Outcome,
) -> Result<ReportText, AllocError>
    ensures text { IfOk result (λ text. text_bytes text ≡ report_text format outcome.now) }
    ensures memory { IsErr result → NeedsMemory outcome.now }
{
    match outcome {
        Outcome::Equivalent { model } => Ok(ReportText::Short(named(
            format,
            ResultName::Equivalent,
            *model,
        ))),
        Outcome::NotEquivalent { node, trace, .. } => {
            let node = node.text(alloc)?;
            let head = first_line(format);
            let trace = trace.as_str();
            Ok(ReportText::Long(format!(in alloc;
                "{head}\nresult: not equivalent\nnode: {node}\n{trace}"
            )?))
        }
        Outcome::Spent { model, node, steps } => {
            Ok(ReportText::Long(spent(alloc, format, *model, node, *steps)?))
        }
        Outcome::Refused {
            file,
            line,
            column,
            cause,
        } => {
            let head = first_line(format);
            let cause = cause.as_str();
            Ok(ReportText::Long(format!(in alloc;
                "{head}\nresult: refused\nfile: {file}\nat: {line}:{column}\ncause: {cause}\n"
            )?))
        }
        Outcome::Stopped { name, word } => Ok(ReportText::Short(stopped(format, *name, *word))),
        Outcome::TheoryAccepted { rules } => Ok(ReportText::Short(accepted(format, *rules))),
        Outcome::Attack { model, side, tests } => {
            Ok(ReportText::Long(attack(alloc, format, *model, *side, tests)?))
        }
        Outcome::Matched { model, side } => Ok(ReportText::Short(matched(format, *model, *side))),
        Outcome::NoRun { model, label } => Ok(ReportText::Short(no_run(format, *model, *label))),
        Outcome::NoMemory => Ok(ReportText::Short(begun(format, ResultName::NoMemory))),
    }
}

/// The one text of an outcome, in format 2.
///
/// An attack, a spent budget, a replayed attack and a refused file have texts that take memory; no other has. Where the
/// outcome has its model and its parts are such texts, it is read again as this outcome.
pub fn text(alloc: Global, outcome: &Outcome) -> Result<ReportText, AllocError>
    ensures text { IfOk result (λ text. text_bytes text ≡ report_text Second outcome.now) }
    ensures memory { IsErr result → NeedsMemory outcome.now }
{
    text_in(alloc, Format::Second, outcome)
}
