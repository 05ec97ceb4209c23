//! Lines of texts.
ghost use Rattle.std.specs.Prelude.{◌≡◌, ◌≢◌, ◌++◌, ℕ, List, Option, IfSome, IfNone, IfOk, IfErr};
ghost use Rattle.dps_signature.specs.Signature.{Signature};
ghost use Rattle.dps_trace.specs.declared.model.ModelName.{ModelName};
ghost use Rattle.dps_branch.specs.declared.Side.{Side};
ghost use Rattle.dps_trace.specs.Cut.{IsCut, IsWithout};
ghost use Rattle.dps_trace.specs.Text.{line, heading, model_line, side_line};
ghost use Rattle.dps_trace.specs.Faults.{BeginsWith, HasTraceFault, heading_lines};

use crate::{ModelName, TraceKind};
use dps_branch::Side;
use memchr::memchr;

/// What stands before the first byte of this value, and what behind it. `None` where there is none.
#[tactic(auto, using(crate::proofs::Fronts::for_cut))]
pub fn cut(byte: u8, bytes: &[u8]) -> Option<(&[u8], &[u8])>
    ensures found { IfSome result (λ p. IsCut byte bytes.now p.0.now p.1.now) }
    ensures none { IfNone result (IsWithout byte bytes.now) }
{
    let Some(place) = memchr(byte, bytes) else {
        return None;
    };
    let (front, behind) = bytes.split_at(place);
    let (_, rest) = behind.split_at(1);
    Some((front, rest))
}

/// What comes behind this front. `None` where the bytes do not begin with it.
#[tactic(auto, using(crate::proofs::Fronts::for_behind))]
pub fn behind<'a>(bytes: &'a [u8], front: &[u8]) -> Option<&'a [u8]>
    ensures found { IfSome result (λ rest. bytes.now ≡ front.now ++ rest.now) }
    ensures none { IfNone result ((rest : List ℕ) → bytes.now ≢ front.now ++ rest) }
{
    match bytes.strip_prefix(front) {
        Some(rest) => Some(rest),
        None => None,
    }
}

/// The model that the first line names, and what comes behind. `None` where it names none, or is not ended by a newline.
#[tactic(auto, using(crate::proofs::Fronts::no_model))]
pub fn read_model_line(bytes: &[u8]) -> Option<(ModelName, &[u8])>
    ensures found { IfSome result (λ p. bytes.now ≡ line (model_line p.0) p.1.now) }
    ensures none { IfNone result ((model : ModelName) → ¬ BeginsWith (model_line model) bytes.now) }
{
    if let Some(rest) = behind(bytes, b"model: private\n") {
        return Some((ModelName::Private, rest));
    }
    if let Some(rest) = behind(bytes, b"model: classic\n") {
        return Some((ModelName::Classic, rest));
    }
    if let Some(rest) = behind(bytes, b"model: eavesdrop\n") {
        return Some((ModelName::Eavesdrop, rest));
    }
    None
}

/// The side that the first line names, and what comes behind. `None` where it names none, or is not ended by a newline.
#[tactic(auto, using(crate::proofs::Fronts::no_side))]
pub fn read_side_line(bytes: &[u8]) -> Option<(Side, &[u8])>
    ensures found { IfSome result (λ p. bytes.now ≡ line (side_line p.0) p.1.now) }
    ensures none { IfNone result ((side : Side) → ¬ BeginsWith (side_line side) bytes.now) }
{
    if let Some(rest) = behind(bytes, b"side: left\n") {
        return Some((Side::Left, rest));
    }
    if let Some(rest) = behind(bytes, b"side: right\n") {
        return Some((Side::Right, rest));
    }
    None
}

/// The lines before that of the side: the model that they name, how many they are, and what comes behind.
#[derive(Clone, Copy)]
pub struct Heading<'a> {
    pub model: Option<ModelName>,
    pub lines: u32,
    pub rest: &'a [u8],
}

/// The lines before that of the side, or the number of the line that is wrong, and what is wrong with it.
#[tactic(auto, using(crate::proofs::Fronts::for_read_heading))]
pub fn read_heading(bytes: &[u8]) -> Result<Heading<'_>, (u32, TraceKind)>
    ensures found { IfOk result (λ h. bytes.now ≡ heading h.model h.rest.now) }
    ensures lines { IfOk result (λ h. h.lines ≡ heading_lines h.model) }
    ensures fault { IfErr result (λ fault. (signature : Signature) → HasTraceFault signature bytes.now fault.0 fault.1) }
    ensures none { IfErr result (λ fault. (model : Option ModelName) (rest : List ℕ) → bytes.now ≢ heading model rest) }
{
    if let Some(rest) = behind(bytes, b"trace 1\n") {
        return Ok(Heading {
            model: None,
            lines: 1,
            rest,
        });
    }
    let Some(rest) = behind(bytes, b"trace 2\n") else {
        return Err((1, TraceKind::Header));
    };
    match read_model_line(rest) {
        Some((model, rest)) => Ok(Heading {
            model: Some(model),
            lines: 2,
            rest,
        }),
        None => Err((2, TraceKind::Model)),
    }
}
