//! Whether the frames of one side are matched by those of the other.
ghost use Rattle.std.specs.Prelude.{◌≡◌, ◌<◌, ◌^◌, length, IsTrue, IfOk, Contains};
ghost use Rattle.dps_tree.specs.Table.{frame_of};
ghost use Rattle.dps_tree.specs.Groups.{HoldsFrame, HasNumbers, AreAmong, HaveConfiguration, IsMutual};
ghost use Rattle.dps_tree.specs.Matching.{HaveLength, AreLevel, IsMatchAnswer, AreMatchAnswer, AreAlikeAnswer, IsGroupAnswer, AreJust};

use crate::digest::with_numbers;
use crate::group::Group;
use crate::places::Places;
use crate::table::Table;
use dps_recipes::Frame;
use dps_static::{Comparison, compare};
use dps_terms::NoMemory;
use dps_theory::Theory;
use std::alloc::{AllocError, Global};

/// Whether each configuration has a statically equivalent frame among those of the others. All frames have one length.
///
/// A frame that the others have too is looked up first, since it needs no comparison.
pub(crate) fn are_matched(
    alloc: Global,
    theory: &Theory,
    table: &Table<'_>,
    groups: &[Group],
    others: &[Group],
) -> Result<bool, NoMemory>
    requires { AreLevel (HoldsFrame table.now groups.now) (HoldsFrame table.now others.now) }
    ensures { IfOk result (AreMatchAnswer theory.now (HoldsFrame table.now groups.now) (HoldsFrame table.now others.now)) }
{
    let places = frame_places(alloc, others)?;
    if have_same_frames(groups, others, &places) {
        return Ok(true);
    }
    let frames = frames(alloc, table, others)?;
    for group in groups {
        if !is_matched(alloc, theory, table, group, others, &places, &frames)? {
            return Ok(false);
        }
    }
    Ok(true)
}

/// Whether the others have one frame, and the groups one at least. Then each frame of the groups is matched where the others'
/// one is equivalent to it, and so is that one in turn.
pub(crate) fn is_mutual(groups: &[Group], others: &[Group]) -> bool
    ensures { IsTrue result → IsMutual groups.now others.now }
{
    others.len() == 1 && have_configuration(groups)
}

/// Whether some configuration is in the groups.
fn have_configuration(groups: &[Group]) -> bool
    ensures { IsTrue result → HaveConfiguration groups.now }
{
    for group in groups {
        if !group.bags.is_empty() {
            return true;
        }
    }
    false
}

/// By the digest of each frame, the places of those that have it.
fn frame_places(alloc: Global, groups: &[Group]) -> Result<Places, NoMemory> {
    let mut places = Places::new(alloc);
    for (place, group) in groups.iter().enumerate() {
        places.add(alloc, with_numbers(0, &group.frame), place)?;
    }
    Ok(places)
}

/// Whether the others have the frame of each group.
fn have_same_frames(groups: &[Group], others: &[Group], places: &Places) -> bool
    ensures { IsTrue result → AreAmong groups.now others.now }
{
    for group in groups {
        if !has_frame(others, places, &group.frame) {
            return false;
        }
    }
    true
}

/// The frames of the groups in which there is a configuration.
fn frames(alloc: Global, table: &Table<'_>, groups: &[Group]) -> Result<Vec<Frame>, NoMemory>
    ensures { IfOk result (λ frames. AreJust frames.items (HoldsFrame table.now groups.now)) }
{
    let mut frames = Vec::new(alloc);
    for group in groups {
        if !group.bags.is_empty() {
            frames.push(frame(alloc, table, &group.frame)?)?;
        }
    }
    Ok(frames)
}

/// The messages with these numbers.
fn frame(alloc: Global, table: &Table<'_>, numbers: &[usize]) -> Result<Frame, NoMemory>
    ensures { IfOk result (λ frame. frame ≡ frame_of table.now numbers.now) }
{
    Ok(Frame {
        messages: table.copies(alloc, numbers)?,
    })
}

/// Whether the configurations of the group, if there are any, have a frame that the others have too, or one that is
/// statically equivalent to one of these. All have one length.
fn is_matched(
    alloc: Global,
    theory: &Theory,
    table: &Table<'_>,
    group: &Group,
    others: &[Group],
    places: &Places,
    frames: &[Frame],
) -> Result<bool, NoMemory>
    requires few { 0 < length group.now.bags → length (frame_of table.now group.now.frame.items) < 2 ^ 32 }
    requires level { 0 < length group.now.bags → HaveLength (length (frame_of table.now group.now.frame.items)) (Contains frames.now) }
    requires made { AreJust frames.now (HoldsFrame table.now others.now) }
    ensures { IfOk result (IsGroupAnswer theory.now (length group.now.bags) (frame_of table.now group.now.frame.items) (HoldsFrame table.now others.now)) }
{
    if group.bags.is_empty() || has_frame(others, places, &group.frame) {
        return Ok(true);
    }
    let frame = frame(alloc, table, &group.frame)?;
    let matched = is_alike_to_one(alloc, theory, &frame, frames)?;
    Ok(matched)
}

/// Whether the frame is statically equivalent to one of the others. All have one length.
fn is_alike_to_one(
    alloc: Global,
    theory: &Theory,
    frame: &Frame,
    others: &[Frame],
) -> Result<bool, NoMemory>
    requires few { length frame.now < 2 ^ 32 }
    requires level { HaveLength (length frame.now) (Contains others.now) }
    ensures { IfOk result (IsMatchAnswer theory.now frame.now (Contains others.now)) }
{
    for other in others {
        if are_alike(alloc, theory, frame, other)? {
            return Ok(true);
        }
    }
    Ok(false)
}

/// Whether some configuration of the groups has the frame with these numbers.
fn has_frame(groups: &[Group], places: &Places, frame: &[usize]) -> bool
    ensures { IsTrue result → HasNumbers groups.now frame.now }
{
    places
        .of(with_numbers(0, frame))
        .iter()
        .any(|place| is_at(groups, *place, frame))
}

/// Whether a configuration at the place has this frame.
fn is_at(groups: &[Group], place: usize, frame: &[usize]) -> bool
    ensures { IsTrue result → HasNumbers groups.now frame.now }
{
    match groups.get(place) {
        Some(group) => !group.bags.is_empty() && group.frame.as_slice() == frame,
        None => false,
    }
}

/// Whether the frames are statically equivalent. They have one length.
fn are_alike(
    alloc: Global,
    theory: &Theory,
    first: &Frame,
    second: &Frame,
) -> Result<bool, NoMemory>
    requires few { length first.now < 2 ^ 32 }
    requires lengths { length first.now ≡ length second.now }
    ensures { IfOk result (AreAlikeAnswer theory.now first.now second.now) }
{
    match compare(alloc, theory, first, second)? {
        Comparison::Same => Ok(true),
        Comparison::Differ(_) => Ok(false),
    }
}
