//! The sides of a program, written out.
ghost use Rattle.std.specs.Prelude.{◌≡◌, ℕ, IfOk, IfErr};
ghost use Rattle.std.specs.Option.{option_map};
ghost use Rattle.std.specs.Ordering.{nat_cmp};
ghost use Rattle.std.specs.BTreeSet as tree;
ghost use Rattle.dps_process.specs.Process.{Process as AProcess};
ghost use Rattle.dps_elab.specs.Expansion.{private_numbers};
ghost use Rattle.dps_elab.specs.Meaning.{first_such, sides, is_no_channel, is_channel, checked, expanded};
ghost use Rattle.dps_elab.specs.Answers.{answered, refusal_of, IsRefusal};

use crate::writer::Writer;
use crate::{ChannelUse, ExpandRefusal, ExpansionCause, ExpansionFault, PrivateUse, Stop};
use dps_lex::Place;
use dps_names::Program;
use dps_process::Process;
use dps_signature::Signature;
use dps_terms::NoMemory;
use std::alloc::{AllocError, Global};
use std::collections::BTreeSet;

/// The two sides of a program, written out.
#[derive(Drop)]
pub struct Sides {
    pub left: Process,
    pub right: Process,
}

/// Writes out the sides of a program.
///
/// Calls are replaced by what they call, copies stand side by side, patterns are taken apart, and each bound variable
/// and each new name has a number of its own. Arguments that are not used take nothing, and the walk stops where a side
/// passes its limits.
///
/// # Errors
///
/// - `Fault`: the first of these: a side, the left one first, of more than 65,536 nodes, or with more than 1,000 on a
///   path, at its first token; something in a channel's place that is no declared name, where the text writes it; a
///   private name in a term that is a channel of one of the sides, where the text writes the name.
/// - `Memory`: want of memory.
pub fn expand(alloc: Global, program: &Program) -> Result<Sides, ExpandRefusal>
    ensures ok { IfOk result (λ s. expanded program.now ≡ sides s.left s.right) }
    ensures refused { IfErr result (λ refusal. IsRefusal refusal (expanded program.now)) }
{
    let private_names = private_names(alloc, &program.signature)?;
    let names = private_names.as_slice();
    let definitions = program.definitions.as_slice();
    let mut writer = Writer::new(alloc, names.len() as u64);
    let left = match writer.side(alloc, names, definitions, &program.left.body) {
        Ok(left) => left,
        Err(stop) => return Err(refusal(stop, program.left.place)),
    };
    let right = match writer.side(alloc, names, definitions, &program.right.body) {
        Ok(right) => right,
        Err(stop) => return Err(refusal(stop, program.right.place)),
    };
    match first_fault(
        alloc,
        writer.channels.as_slice(),
        writer.privates.as_slice(),
    )? {
        Some(fault) => Err(ExpandRefusal::Fault(fault)),
        None => Ok(Sides { left, right }),
    }
}

/// The numbers of the private names, in order.
fn private_names(alloc: Global, signature: &Signature) -> Result<Vec<u32>, NoMemory>
    ensures { IfOk result (λ v. v.items ≡ private_numbers 0 signature.now.names) }
{
    let mut found = Vec::new(alloc);
    for number in 0..signature.name_count() {
        if signature.is_private(number) {
            found.push(number)?;
        }
    }
    Ok(found)
}

/// A side that was not written.
fn refusal(stop: Stop, place: Place) -> ExpandRefusal
    ensures { result ≡ refusal_of stop place }
{
    match stop {
        Stop::TooLarge => ExpandRefusal::Fault(ExpansionFault {
            place,
            cause: ExpansionCause::TooLarge,
        }),
        Stop::Memory => ExpandRefusal::Memory,
    }
}

/// The first fault of channels and private names.
fn first_fault(
    alloc: Global,
    channels: &[ChannelUse],
    privates: &[PrivateUse],
) -> Result<Option<ExpansionFault>, NoMemory>
    ensures { IfOk result (λ fault. (left right : AProcess) → checked left right channels.now privates.now ≡ answered left right fault) }
{
    if let Some(place) = first_no_channel(channels) {
        return Ok(Some(ExpansionFault {
            place,
            cause: ExpansionCause::NotAChannel,
        }));
    }
    let names = channel_names(alloc, channels)?;
    match first_among(privates, &names) {
        Some(place) => Ok(Some(ExpansionFault {
            place,
            cause: ExpansionCause::PrivateChannel,
        })),
        None => Ok(None),
    }
}

/// Where the first of them stands that is no declared name.
fn first_no_channel(channels: &[ChannelUse]) -> Option<Place>
    ensures { result ≡ option_map (λ c. c.place) (first_such is_no_channel channels.now) }
{
    for channel in channels {
        if channel.name.is_none() {
            return Some(channel.place);
        }
    }
    None
}

/// The declared names that are channels.
fn channel_names(alloc: Global, channels: &[ChannelUse]) -> Result<BTreeSet<u32>, NoMemory>
    ensures { IfOk result (λ names. (n : ℕ) → tree.contains nat_cmp names n ≡ is_channel channels.now n) }
{
    let mut names = BTreeSet::new(alloc);
    for channel in channels {
        if let Some(name) = channel.name {
            names.insert(name)?;
        }
    }
    Ok(names)
}

/// Where the first of the private names stands that is one of these.
fn first_among(privates: &[PrivateUse], names: &BTreeSet<u32>) -> Option<Place>
    ensures { result ≡ option_map (λ u. u.place) (first_such (λ u. tree.contains nat_cmp names.now u.name) privates.now) }
{
    for found in privates {
        if names.contains(&found.name) {
            return Some(found.place);
        }
    }
    None
}
