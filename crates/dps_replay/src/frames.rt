//! Configurations by what they have put out.
ghost use Rattle.std.specs.Prelude.{◌≡◌, ◌<◌, length, IfOk, IfSome, IsTrue};
ghost use Rattle.dps_replay.specs.Matching.{IsFrameAt, IsFirst, AreFirsts};

use dps_bags::Places;
use dps_recipes::Frame;
use dps_semantics::Config;
use dps_terms::{NoMemory, Term, mixed};
use std::alloc::{AllocError, Global};

/// What the configuration has put out.
pub(crate) fn frame(config: &Config) -> &Frame
    ensures { result.now ≡ config.now.frame }
{
    &config.frame
}

/// The messages of the frame.
fn messages(frame: &Frame) -> &[Term]
    ensures { result.now ≡ frame.now }
{
    &frame.messages
}

/// A digest of the messages: equal frames have equal digests, and others seldom do.
fn digest(frame: &Frame) -> u64 {
    let mut digest = 0;
    for message in &frame.messages {
        digest = mixed(digest, message.whole().digest());
    }
    digest
}

/// Whether both have the same messages.
fn are_same(one: &[Term], other: &[Term]) -> bool
    ensures { IsTrue result → one.now ≡ other.now }
{
    if one.len() != other.len() {
        return false;
    }
    for index in 0..one.len() {
        if !one[index].equals(&other[index]) {
            return false;
        }
    }
    true
}

/// Whether the configuration at the place, below the limit, has the frame.
fn is_at(configs: &[Config], limit: usize, place: usize, wanted: &Frame) -> bool
    ensures { IsTrue result → IsFrameAt configs.now limit wanted.now place }
{
    match configs.get(place) {
        Some(config) => place < limit && are_same(messages(frame(config)), messages(wanted)),
        None => false,
    }
}

/// The first of the places, below the limit, at which a configuration has the frame.
fn place_among(configs: &[Config], places: &[usize], limit: usize, wanted: &Frame) -> Option<usize>
    ensures { IfSome result (IsFrameAt configs.now limit wanted.now) }
{
    for place in places {
        if is_at(configs, limit, *place, wanted) {
            return Some(*place);
        }
    }
    None
}

/// The place of one before with the frame of the configuration at the place, or this place, which is noted then.
fn first_with(
    alloc: Global,
    configs: &[Config],
    place: usize,
    places: &mut Places,
) -> Result<usize, NoMemory>
    requires { place < length configs.now }
    ensures { IfOk result (IsFirst configs.now place) }
{
    let wanted = frame(&configs[place]);
    let digest = digest(wanted);
    match place_among(configs, places.of(digest), place, wanted) {
        Some(first) => Ok(first),
        None => {
            places.add(alloc, digest, place)?;
            Ok(place)
        }
    }
}

/// Where the frames of configurations stand.
#[derive(Drop)]
pub(crate) struct Frames {
    /// For each configuration the place of the first with its frame.
    pub(crate) firsts: Vec<usize>,
    places: Places,
}

impl Frames {
    /// Where the frames of these configurations stand.
    pub(crate) fn of(alloc: Global, configs: &[Config]) -> Result<Frames, NoMemory>
        ensures { IfOk result (λ frames. AreFirsts configs.now (length configs.now) frames.firsts.items) }
    {
        let mut places = Places::new(alloc);
        let mut firsts = Vec::new(alloc);
        for place in 0..configs.len() {
            let first = first_with(alloc, configs, place, &mut places)?;
            firsts.push(first)?;
        }
        Ok(Frames { firsts, places })
    }

    /// The place of one of the configurations with the frame.
    pub(crate) fn place_of(&self, configs: &[Config], wanted: &Frame) -> Option<usize>
        ensures { IfSome result (IsFrameAt configs.now (length configs.now) wanted.now) }
    {
        place_among(
            configs,
            self.places.of(digest(wanted)),
            configs.len(),
            wanted,
        )
    }
}
