//! Inputs and outputs by number, each once.
ghost use Rattle.std.specs.Prelude.{◌≡◌, ◌↔◌, ◌<◌, [], length, IfOk, IsTrue, MatchOption};
ghost use Rattle.dps_semantics.specs.Parts.{IsNumbered, AreNumbers, IsPartAt, IsNowhere, part_of, parts_of};

use crate::digest::with_process;
use dps_bags::Places;
use dps_process::Process;
use dps_terms::NoMemory;
use std::alloc::{AllocError, Global};
use std::marker::Model;

/// Parts of configurations, by their numbers. Equal ones have one number.
#[derive(Drop)]
pub(crate) struct Parts {
    list: Vec<Process>,
    places: Places,
}

impl Model for Parts {
    ghost use Rattle.std.specs.Prelude.{List};
    ghost use Rattle.std.specs.Coded.{coded_list};
    ghost use Rattle.dps_process.specs.Process.{Process};
    ghost use Rattle.dps_process.specs.Stored.{process_code};

    ghost Value = { List Process };

    ghost coded = { coded_list process_code };

    ghost view = { λ a. a.list.items };

    ghost use Rattle.dps_bags.specs.Places.{AllNoted};
    ghost use Rattle.dps_process.specs.Process.{nil};
    ghost use Rattle.dps_semantics.specs.Digest.{process_digest};

    ghost invariant = { λ a. AllNoted (process_digest 0) nil a.list.items a.places };
}

impl Parts {
    /// None yet. It takes no memory.
    pub(crate) fn new(alloc: Global) -> Parts
        ensures { result ≡ [] }
    {
        Parts {
            list: Vec::new(alloc),
            places: Places::new(alloc),
        }
    }

    /// How many there are.
    pub(crate) fn len(&self) -> usize
        ensures { result ≡ length self.now }
    {
        self.list.len()
    }

    /// The number of a part, a new one where there is none: it is compared with those of its digest alone.
    pub(crate) fn number(&mut self, alloc: Global, part: &Process) -> Result<usize, NoMemory>
        ensures { IfOk result (IsNumbered self.old self.new part.now) }
    {
        let digest = with_process(0, part);
        if let Some(number) = part_among(&self.list, self.places.of(digest), part) {
            return Ok(number);
        }
        let number = self.list.len();
        let copy = part.copy(alloc)?;
        self.places.add(alloc, digest, number)?;
        self.list.push(copy)?;
        Ok(number)
    }

    /// The part with this number.
    pub(crate) fn part(&self, number: usize) -> &Process
        requires { number < length self.now }
        ensures { result.now ≡ part_of self.now number }
    {
        &self.list[number]
    }

    /// Copies of the parts with these numbers.
    pub(crate) fn copies(&self, alloc: Global, numbers: &[usize]) -> Result<Vec<Process>, NoMemory>
        requires { AreNumbers self.now numbers.now }
        ensures { IfOk result (λ copies. copies.items ≡ parts_of self.now numbers.now) }
    {
        let mut copies = Vec::with_capacity(alloc, numbers.len())?;
        for index in 0..numbers.len() {
            let copy = self.part(numbers[index]).copy(alloc)?;
            copies.push(copy)?;
        }
        Ok(copies)
    }
}

/// Which of the numbers is one of this part.
fn part_among(parts: &[Process], numbers: &[usize], part: &Process) -> Option<usize>
    ensures { MatchOption result (IsNowhere parts.now numbers.now part.now) (λ n. IsPartAt parts.now n part.now) }
{
    for index in 0..numbers.len() {
        if is_part_at(parts, numbers[index], part) {
            return Some(numbers[index]);
        }
    }
    None
}

/// Whether the part has the number.
fn is_part_at(parts: &[Process], number: usize, part: &Process) -> bool
    ensures { IsTrue result ↔ IsPartAt parts.now number part.now }
{
    match parts.get(number) {
        Some(other) => other.equals(part),
        None => false,
    }
}
