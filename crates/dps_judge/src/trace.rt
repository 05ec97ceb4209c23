//! The texts of traces.
ghost use Rattle.std.specs.Prelude.{◌≡◌, ◌<◌, ◌+◌, ◌++◌, ◌^◌, [], ◌∷◌, All, length, string_bytes, IfOk, OnOk};
ghost use Rattle.dps_process.specs.Models.{model_of};
ghost use Rattle.dps_process.specs.Steps.{outputs};
ghost use Rattle.dps_tree.specs.Words.{word_of};
ghost use Rattle.dps_judge.specs.Traces.{label_text, head_text, side_text, trace_text};

use dps_branch::Side;
use dps_process::CommModel;
use dps_signature::Signature;
use dps_terms::NoMemory;
use dps_tree::PlainAttack;
use std::alloc::Global;

fn side_text(side: Side) -> &'static str
    ensures { result.now ≡ side_text side }
{
    match side {
        Side::Left => "left",
        Side::Right => "right",
    }
}

/// The lines before the name of the side, and what stands before it in its line.
fn head_text(model: CommModel) -> &'static str
    ensures { result.now ≡ head_text (model_of model) }
{
    match model {
        CommModel::Private => "trace 2\nmodel: private\nside: ",
        CommModel::Classic => "trace 2\nmodel: classic\nside: ",
    }
}

/// `out(c,axj)` and the end of the line: the channel's text, and the number of the output, counted from 1.
fn write_output(
    text: &mut String,
    signature: &Signature,
    channel: u32,
    number: usize,
) -> Result<(), NoMemory>
    requires { channel < length signature.now.names }
    ensures { OnOk result (string_bytes text.new ≡ string_bytes text.old ++ (label_text signature.now (outputs channel number) ++ 10 ∷ [])) }
{
    text.push_str("out(")?;
    text.push_str(signature.name_text(channel))?;
    write!(text, ",ax{number})\n")
}

/// The text, in format 2, of a trace that puts out messages on these channels, which are names of the signature.
#[tactic(auto, using(crate::proofs::Lines::line_more))]
pub(crate) fn trace_text(
    alloc: Global,
    signature: &Signature,
    model: CommModel,
    attack: &PlainAttack,
) -> Result<String, NoMemory>
    requires { All (λ c. c < length signature.now.names) attack.now.channels.items }
    ensures { IfOk result (λ text. string_bytes text ≡ trace_text signature.now (model_of model) attack.now.side (word_of attack.now.channels.items)) }
{
    let mut text = String::new(alloc);
    text.push_str(head_text(model))?;
    text.push_str(side_text(attack.side))?;
    text.push_str("\n")?;
    for (index, channel) in attack.channels.iter().enumerate() {
        write_output(&mut text, signature, *channel, index + 1)?;
    }
    Ok(text)
}
