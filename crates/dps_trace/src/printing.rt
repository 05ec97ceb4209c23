//! The texts of labels and of traces.
ghost use Rattle.std.specs.Prelude.{◌≡◌, ◌++◌, ◌∷◌, [], map, string_bytes, IfOk, OnOk};
ghost use Rattle.dps_terms.specs.Seen.{seen};
ghost use Rattle.dps_process.specs.Steps.{inputs, outputs};
ghost use Rattle.dps_process.specs.Labels.{label_of};
ghost use Rattle.dps_signature.specs.Text.{name_text};
ghost use Rattle.dps_trace.specs.Text.{label_text, label_lines, side_line, heading, trace_text};

use crate::{ModelName, Trace};
use dps_branch::Side;
use dps_process::Label;
use dps_signature::{Signature, write_term};
use dps_terms::{NoMemory, TermRef};
use std::alloc::Global;

/// Writes the label behind what is there: `in(c,R)` or `out(c,axj)`.
pub fn write_label(
    alloc: Global,
    text: &mut String,
    signature: &Signature,
    label: &Label,
) -> Result<(), NoMemory>
    ensures { OnOk result (string_bytes text.new ≡ string_bytes text.old ++ label_text signature.now (label_of label.now)) }
{
    match label {
        Label::In(channel, recipe) => {
            write_input(alloc, text, signature, *channel, recipe.whole())
        }
        Label::Out(channel, number) => write_output(text, signature, *channel, *number),
    }
}

fn write_input(
    alloc: Global,
    text: &mut String,
    signature: &Signature,
    channel: u32,
    recipe: TermRef<'_>,
) -> Result<(), NoMemory>
    ensures { OnOk result (string_bytes text.new ≡ string_bytes text.old ++ label_text signature.now (inputs channel (seen recipe.entry))) }
{
    text.push_str("in(")?;
    text.push_str(name_of(signature, channel))?;
    text.push_str(",")?;
    write_term(alloc, text, recipe, signature, signature)?;
    text.push_str(")")
}

fn write_output(
    text: &mut String,
    signature: &Signature,
    channel: u32,
    number: u32,
) -> Result<(), NoMemory>
    ensures { OnOk result (string_bytes text.new ≡ string_bytes text.old ++ label_text signature.now (outputs channel number)) }
{
    text.push_str("out(")?;
    text.push_str(name_of(signature, channel))?;
    write!(text, ",ax{number})")
}

/// The text of a declared name, and the empty text where there is no such name.
fn name_of(signature: &Signature, number: u32) -> &str
    ensures { result.now ≡ name_text signature.now number }
{
    if number < signature.name_count() {
        signature.name_text(number)
    } else {
        ""
    }
}

fn line_of_side(side: Side) -> &'static str
    ensures { result.now ≡ side_line side ++ 10 ∷ [] }
{
    match side {
        Side::Left => "side: left\n",
        Side::Right => "side: right\n",
    }
}

/// The lines before that of the side.
fn heading_of(model: Option<ModelName>) -> &'static str
    ensures { result.now ≡ heading model [] }
{
    match model {
        None => "trace 1\n",
        Some(ModelName::Private) => "trace 2\nmodel: private\n",
        Some(ModelName::Classic) => "trace 2\nmodel: classic\n",
        Some(ModelName::Eavesdrop) => "trace 2\nmodel: eavesdrop\n",
    }
}

/// Writes a line for each label.
#[tactic(auto, using(crate::proofs::EachLine::line_more, crate::proofs::EachLine::lines_done))]
fn write_labels(
    alloc: Global,
    text: &mut String,
    signature: &Signature,
    labels: &[Label],
) -> Result<(), NoMemory>
    ensures { OnOk result (string_bytes text.new ≡ string_bytes text.old ++ label_lines signature.now (map label_of labels.now) []) }
{
    for label in labels {
        write_label(alloc, text, signature, label)?;
        text.push_str("\n")?;
    }
    Ok(())
}

/// The trace's text: in format 2 where it has a model, and else in format 1.
///
/// It fails for want of memory alone. Where the labels may stand in a trace, the text is read again as this trace.
#[tactic(auto, using(crate::proofs::EachLine::whole_text))]
pub fn print_trace(alloc: Global, signature: &Signature, trace: &Trace) -> Result<String, NoMemory>
    ensures { IfOk result (λ text. string_bytes text ≡ trace_text signature.now trace.now) }
{
    let mut text = String::new(alloc);
    text.push_str(heading_of(trace.model))?;
    text.push_str(line_of_side(trace.side))?;
    write_labels(alloc, &mut text, signature, &trace.labels)?;
    Ok(text)
}
