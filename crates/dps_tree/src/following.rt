//! Which configurations follow one another.
ghost use Rattle.std.specs.Prelude.{◌<◌, ◌≡◌, ◌++◌, ◌∷◌, [], length, IfOk, OnOk, IsTrue};
ghost use Rattle.dps_tree.specs.Groups.{Holds, AreNamed};
ghost use Rattle.dps_tree.specs.Following.{AreFollowing, IsJust, IsMore, AreMore, GroupGoesOn, OneGoesOn, GoesOn, GoesOnAt, LeadsOn, IsAfter, IsRepeated, AddsOffers, GroupsOffer, OneBagOffers, BagOffers, NumberOffers};

use crate::bags::Bags;
use crate::group::Group;
use crate::next::Next;
use crate::table::Table;
use dps_terms::NoMemory;
use std::alloc::{AllocError, Global};
use std::collections::BTreeSet;

/// The configurations that follow by an output on the channel, each once.
pub(crate) fn following(
    alloc: Global,
    table: &Table<'_>,
    groups: &[Group],
    channel: u32,
) -> Result<Vec<Group>, NoMemory>
    requires { AreNamed table.now groups.now }
    ensures following { IfOk result (λ found. AreFollowing (Holds table.now groups.now) channel (Holds table.now found.items)) }
    ensures named { IfOk result (λ found. AreNamed table.now found.items) }
{
    let mut found = Vec::new(alloc);
    for group in groups {
        add_following(alloc, table, group, channel, &mut found)?;
    }
    Ok(found)
}

/// Adds those that follow the configurations of one frame.
fn add_following(
    alloc: Global,
    table: &Table<'_>,
    group: &Group,
    channel: u32,
    found: &mut Vec<Group>,
) -> Result<(), NoMemory>
    ensures { OnOk result (AreMore (GroupGoesOn table.now group.now channel) found.old.items found.new.items) }
{
    let next = next_bags(alloc, table, &group.bags, channel)?;
    add_groups(alloc, &group.frame, next, found)?;
    Ok(())
}

/// The bags that follow those of one frame, by the message that was put out.
fn next_bags(alloc: Global, table: &Table<'_>, bags: &Bags, channel: u32) -> Result<Next, NoMemory>
    ensures { IfOk result (IsJust (OneGoesOn table.now bags.now channel)) }
{
    let mut next = Next::new(alloc);
    for bag in bags.list() {
        add_next(alloc, table, bag, channel, &mut next)?;
    }
    Ok(next)
}

/// One group for each message that was put out after the frame.
fn add_groups(
    alloc: Global,
    frame: &[usize],
    next: Next,
    found: &mut Vec<Group>,
) -> Result<(), NoMemory>
    ensures { OnOk result (AreMore (LeadsOn frame.now next) found.old.items found.new.items) }
{
    let mut left = next.bags;
    found.reserve(left.len())?;
    while let Some((message, bags)) = left.pop_first() {
        let frame = longer(alloc, frame, message)?;
        found.push(Group { frame, bags })?;
    }
    Ok(())
}

/// The frame with one more message.
fn longer(alloc: Global, frame: &[usize], message: usize) -> Result<Vec<usize>, NoMemory>
    ensures { IfOk result (λ longer. longer.items ≡ frame.now ++ message ∷ []) }
{
    let mut longer = Vec::new(alloc);
    longer.extend_from_slice(frame)?;
    longer.push(message)?;
    Ok(longer)
}

/// Adds what follows the bag.
fn add_next(
    alloc: Global,
    table: &Table<'_>,
    bag: &[usize],
    channel: u32,
    next: &mut Next,
) -> Result<(), NoMemory>
    ensures { OnOk result (IsMore (GoesOn table.now bag.now channel) next.old next.new) }
{
    for index in 0..bag.len() {
        if !is_repeated(bag, index) {
            add_part(alloc, table, bag, index, channel, next)?;
        }
    }
    Ok(())
}

/// Whether the part before this one is the same. Then what follows by the one follows by the other.
fn is_repeated(bag: &[usize], index: usize) -> bool
    requires { index < length bag.now }
    ensures { IsTrue result → IsRepeated bag.now index }
{
    index > 0 && bag[index - 1] == bag[index]
}

/// Adds what follows where this part puts out its message, if it does so on the channel.
fn add_part(
    alloc: Global,
    table: &Table<'_>,
    bag: &[usize],
    index: usize,
    channel: u32,
    next: &mut Next,
) -> Result<(), NoMemory>
    requires { index < length bag.now }
    ensures { OnOk result (IsMore (GoesOnAt table.now bag.now channel index) next.old next.new) }
{
    if let Some(output) = table.output(bag[index]) {
        if output.channel == channel {
            let after = after(alloc, bag, index, &output.then)?;
            next.add(alloc, output.message, after)?;
            return Ok(());
        }
    }
    Ok(())
}

/// The bag with others in the place of the part, in ascending order.
fn after(alloc: Global, bag: &[usize], index: usize, then: &[usize]) -> Result<Vec<usize>, NoMemory>
    requires { index < length bag.now }
    ensures { IfOk result (λ next. IsAfter bag.now index then.now next.items) }
{
    let mut after = Vec::new(alloc);
    after.extend_from_slice(&bag[..index])?;
    after.extend_from_slice(&bag[index + 1..])?;
    after.extend_from_slice(then)?;
    after.sort_unstable();
    Ok(after)
}

/// Adds the channels on which some configuration offers an output.
pub(crate) fn add_channels(
    table: &Table<'_>,
    groups: &[Group],
    channels: &mut BTreeSet<u32>,
) -> Result<(), NoMemory>
    ensures { OnOk result (AddsOffers (GroupsOffer table.now groups.now) channels.old.keys channels.new.keys) }
{
    for group in groups {
        add_group_offers(table, &group.bags, channels)?;
    }
    Ok(())
}

/// Adds the channels on which one of the bags offers an output.
fn add_group_offers(
    table: &Table<'_>,
    bags: &Bags,
    channels: &mut BTreeSet<u32>,
) -> Result<(), NoMemory>
    ensures { OnOk result (AddsOffers (OneBagOffers table.now bags.now) channels.old.keys channels.new.keys) }
{
    for bag in bags.list() {
        add_offers(table, bag, channels)?;
    }
    Ok(())
}

/// Adds the channels on which the bag offers an output.
fn add_offers(
    table: &Table<'_>,
    bag: &[usize],
    channels: &mut BTreeSet<u32>,
) -> Result<(), NoMemory>
    ensures { OnOk result (AddsOffers (BagOffers table.now bag.now) channels.old.keys channels.new.keys) }
{
    for number in bag {
        add_offer(table, *number, channels)?;
    }
    Ok(())
}

/// Adds the channel of the output with this number.
fn add_offer(table: &Table<'_>, number: usize, channels: &mut BTreeSet<u32>) -> Result<(), NoMemory>
    ensures { OnOk result (AddsOffers (NumberOffers table.now number) channels.old.keys channels.new.keys) }
{
    if let Some(output) = table.output(number) {
        channels.insert(output.channel)?;
    }
    Ok(())
}
