//! Configurations, each once.
ghost use Rattle.std.specs.Prelude.{◌≡◌, ◌↔◌, map, IfOk, IsTrue};
ghost use Rattle.dps_semantics.specs.Settling.{EachStandsOnce};
ghost use Rattle.dps_semantics.specs.Digest.{config_digest};
ghost use Rattle.dps_semantics.specs.Once.{AreSame, AreNumbersOf, IsKept, IsKeptAt, IsKeyAt, IsFrameAt};

use crate::Config;
use crate::digest::terms_digest;
use crate::parts::Parts;
use dps_bags::{Places, with_numbers};
use dps_process::Process;
use dps_recipes::Frame;
use dps_terms::{NoMemory, Term};
use std::alloc::{AllocError, Global};

/// The configurations without those that are another one with its parts in another order: each is compared with those of
/// its digest alone.
pub(crate) fn each_once(alloc: Global, configs: Vec<Config>) -> Result<Vec<Config>, NoMemory>
    ensures same { IfOk result (λ once. AreSame configs.items once.items) }
    ensures once { IfOk result (λ once. EachStandsOnce once.items) }
{
    let mut table = Parts::new(alloc);
    let mut places = Places::new(alloc);
    let mut keys = Vec::new(alloc);
    let mut once = Vec::new(alloc);
    let mut left = configs;
    while let Some(config) = left.pop() {
        let numbers = numbers_of(alloc, &mut table, &config.parts)?;
        let digest = config_digest(&config.frame, &numbers);
        if !is_kept(&keys, &once, places.of(digest), &numbers, &config.frame) {
            places.add(alloc, digest, once.len())?;
            keys.push(numbers)?;
            once.push(config)?;
        }
    }
    Ok(once)
}

/// The numbers of the processes, in ascending order.
fn numbers_of(
    alloc: Global,
    table: &mut Parts,
    processes: &[Process],
) -> Result<Vec<usize>, NoMemory>
    ensures { IfOk result (λ numbers. AreNumbersOf processes.now table.old table.new numbers.items) }
{
    let mut numbers = Vec::with_capacity(alloc, processes.len())?;
    for index in 0..processes.len() {
        let number = table.number(alloc, &processes[index])?;
        numbers.push(number)?;
    }
    numbers.sort_unstable();
    Ok(numbers)
}

/// The digest of the messages and the numbers.
fn config_digest(frame: &Frame, numbers: &[usize]) -> u64
    ensures { result ≡ config_digest frame.now numbers.now }
{
    with_numbers(terms_digest(listed(frame)), numbers)
}

/// Whether the numbers and the frame stand at one of the places.
fn is_kept(
    keys: &[Vec<usize>],
    once: &[Config],
    places: &[usize],
    numbers: &[usize],
    frame: &Frame,
) -> bool
    ensures { IsTrue result ↔ IsKept (map (λ key. key.items) keys.now) once.now places.now numbers.now frame.now }
{
    for index in 0..places.len() {
        if is_kept_at(keys, once, places[index], numbers, frame) {
            return true;
        }
    }
    false
}

/// Whether the numbers and the frame stand at the place.
fn is_kept_at(
    keys: &[Vec<usize>],
    once: &[Config],
    place: usize,
    numbers: &[usize],
    frame: &Frame,
) -> bool
    ensures { IsTrue result ↔ IsKeptAt (map (λ key. key.items) keys.now) once.now place numbers.now frame.now }
{
    is_key_at(keys, place, numbers) && is_frame_at(once, place, frame)
}

/// Whether the numbers stand at the place.
fn is_key_at(keys: &[Vec<usize>], place: usize, numbers: &[usize]) -> bool
    ensures { IsTrue result ↔ IsKeyAt (map (λ key. key.items) keys.now) place numbers.now }
{
    match keys.get(place) {
        Some(key) => key.as_slice() == numbers,
        None => false,
    }
}

/// Whether the configuration at the place has the frame.
fn is_frame_at(once: &[Config], place: usize, frame: &Frame) -> bool
    ensures { IsTrue result ↔ IsFrameAt once.now place frame.now }
{
    match once.get(place) {
        Some(config) => are_same(messages(config), listed(frame)),
        None => false,
    }
}

/// What the configuration has put out.
fn messages(config: &Config) -> &[Term]
    ensures { result.now ≡ config.now.frame }
{
    &config.frame.messages
}

/// The messages of the frame.
fn listed(frame: &Frame) -> &[Term]
    ensures { result.now ≡ frame.now }
{
    &frame.messages
}

/// Whether both have the same messages.
fn are_same(one: &[Term], other: &[Term]) -> bool
    ensures { IsTrue result ↔ (one.now ≡ other.now) }
{
    if one.len() != other.len() {
        return false;
    }
    for index in 0..one.len() {
        if !one[index].equals(&other[index]) {
            return false;
        }
    }
    true
}
