//! Labels of texts.
ghost use Rattle.std.specs.Prelude.{◌≡◌, ◌≤◌, ◌<◌, ◌^◌, ◌++◌, ◌∷◌, ℕ, List, [], IfOk, IfSome, IsSomeAnd, Some, option_map, codes};
ghost use Rattle.std.specs.Fmt.{decimal};
ghost use Rattle.dps_terms.specs.Tree.{Tree};
ghost use Rattle.dps_signature.specs.Signature.{IsPublic};
ghost use Rattle.dps_signature.specs.Text.{name_text, term_text};
ghost use Rattle.dps_process.specs.Steps.{Label as SeenLabel, inputs, outputs};
ghost use Rattle.dps_process.specs.Labels.{label_of};
ghost use Rattle.dps_signature.specs.Spelled.{IsSpelled};
ghost use Rattle.dps_trace.specs.Text.{label_text};
ghost use Rattle.dps_trace.specs.Written.{IsWrittenLabel, IsWrittenRecipe};

use crate::lines::{behind, cut};
use crate::printing::write_label;
use crate::recipe::recipe_read;
use crate::words::{handle_read, public_named};
use dps_process::Label;
use dps_signature::Signature;
use dps_terms::NoMemory;
use std::alloc::Global;

/// The label over the signature with this text.
#[tactic(auto, using(crate::proofs::LabelLike::other_text))]
pub(crate) fn read_label(
    alloc: Global,
    signature: &Signature,
    line: &[u8],
) -> Result<Option<Label>, NoMemory>
    requires { IsSpelled signature.now }
    ensures found { IfOk result (λ found. IfSome found (λ label. IsWrittenLabel signature.now (label_of label) × (line.now ≡ label_text signature.now (label_of label)))) }
    ensures only { (label : SeenLabel) → IsWrittenLabel signature.now label → line.now ≡ label_text signature.now label → IfOk result (λ found. option_map label_of found ≡ Some label) }
{
    let Some(label) = label_like(alloc, signature, line)? else {
        return Ok(None);
    };
    let mut text = String::new(alloc);
    write_label(alloc, &mut text, signature, &label)?;
    if text.as_bytes() == line {
        Ok(Some(label))
    } else {
        Ok(None)
    }
}

/// The label that alone may have this text.
#[tactic(auto, using(crate::proofs::LabelLike::of_none))]
fn label_like(alloc: Global, signature: &Signature, line: &[u8]) -> Result<Option<Label>, NoMemory>
    requires { IsSpelled signature.now }
    ensures written { IfOk result (λ found. IfSome found (λ label. IsWrittenLabel signature.now (label_of label))) }
    ensures only { (label : SeenLabel) → IsWrittenLabel signature.now label → line.now ≡ label_text signature.now label → IfOk result (λ found. option_map label_of found ≡ Some label) }
{
    if let Some(rest) = behind(line, b"in(") {
        return input_like(alloc, signature, rest);
    }
    if let Some(rest) = behind(line, b"out(") {
        return Ok(output_like(signature, rest));
    }
    Ok(None)
}

/// The input of which this may be what is written behind `in(`.
#[tactic(auto, using(crate::proofs::LabelLike::for_input_like))]
fn input_like(alloc: Global, signature: &Signature, rest: &[u8]) -> Result<Option<Label>, NoMemory>
    requires { IsSpelled signature.now }
    ensures written { IfOk result (λ found. IfSome found (λ label. IsWrittenLabel signature.now (label_of label))) }
    ensures only { (c : ℕ) (r : Tree) → IsWrittenLabel signature.now (inputs c r) → rest.now ≡ name_text signature.now c ++ (codes "," ++ (term_text signature.now r ++ codes ")")) → IfOk result (λ found. option_map label_of found ≡ Some (inputs c r)) }
{
    let Some((channel, recipe)) = split_channel(signature, rest) else {
        return Ok(None);
    };
    match recipe_read(alloc, signature, recipe)? {
        Some(recipe) => Ok(Some(Label::In(channel, recipe))),
        None => Ok(None),
    }
}

/// The output of which this may be what is written behind `out(`.
#[tactic(auto, using(crate::proofs::LabelLike::for_output_like))]
fn output_like(signature: &Signature, rest: &[u8]) -> Option<Label>
    requires { IsSpelled signature.now }
    ensures written { IfSome result (λ label. IsWrittenLabel signature.now (label_of label)) }
    ensures only { (c j : ℕ) → IsWrittenLabel signature.now (outputs c j) → rest.now ≡ name_text signature.now c ++ (codes ",ax" ++ (decimal j ++ codes ")")) → option_map label_of result ≡ Some (outputs c j) }
{
    let Some((channel, handle)) = split_channel(signature, rest) else {
        return None;
    };
    match handle_read(handle) {
        Some(number) => Some(Label::Out(channel, number)),
        None => None,
    }
}

/// The public channel up to the first comma, and what stands between that comma and the last byte.
#[tactic(auto, using(crate::proofs::Labels::for_split_channel))]
fn split_channel<'a>(signature: &Signature, text: &'a [u8]) -> Option<(u32, &'a [u8])>
    requires { IsSpelled signature.now }
    ensures public { IfSome result (λ p. IsPublic signature.now p.0) }
    ensures only { (c : ℕ) (inside : List ℕ) → IsPublic signature.now c → text.now ≡ name_text signature.now c ++ (44 ∷ inside ++ 41 ∷ []) → IsSomeAnd result (λ p. (p.0 ≡ c) × (p.1.now ≡ inside)) }
{
    let Some((name, behind)) = cut(b',', text) else {
        return None;
    };
    let Some(channel) = public_named(signature, name) else {
        return None;
    };
    let Some((_, inside)) = behind.split_last() else {
        return None;
    };
    Some((channel, inside))
}
