//! Bags of numbers, each once.
ghost use Rattle.std.specs.Prelude.{◌≡◌, ◌⊎◌, ◌↔◌, ◌<◌, ℕ, List, [], map, length, IsTrue, OnOk, Contains};

use crate::digest::with_numbers;
use crate::places::Places;
use dps_terms::NoMemory;
use std::alloc::{AllocError, Global};
use std::marker::Model;

/// Lists of numbers, each in ascending order, and where those stand that have a digest.
#[derive(Drop)]
pub(crate) struct Bags {
    list: Vec<Vec<usize>>,
    places: Places,
}

impl Model for Bags {
    ghost use Rattle.std.specs.Prelude.{List, ℕ, map};
    ghost use Rattle.std.specs.Coded.{coded_list, coded_ℕ};

    ghost Value = { List (List ℕ) };

    ghost coded = { coded_list (coded_list coded_ℕ) };

    ghost view = { λ a. map (λ bag. bag.items) a.list.items };
}

impl Bags {
    /// None yet. It takes no memory.
    pub(crate) fn new(alloc: Global) -> Bags
        ensures { result ≡ [] }
    {
        Bags {
            list: Vec::new(alloc),
            places: Places::new(alloc),
        }
    }

    /// Adds a bag, where it is new: it is compared with those of its digest alone.
    pub(crate) fn add(&mut self, alloc: Global, bag: Vec<usize>) -> Result<(), NoMemory>
        ensures { OnOk result ((b : List ℕ) → Contains self.new b ↔ (Contains self.old b ⊎ (b ≡ bag.items))) }
    {
        let digest = with_numbers(0, &bag);
        if stand_at(&self.list, self.places.of(digest), &bag) {
            return Ok(());
        }
        self.places.add(alloc, digest, self.list.len())?;
        self.list.push(bag)?;
        Ok(())
    }

    /// Whether there are none.
    pub(crate) fn is_empty(&self) -> bool
        ensures { IsTrue result ↔ (length self.now ≡ 0) }
    {
        self.list.is_empty()
    }

    /// The bags.
    pub(crate) fn list(&self) -> &[Vec<usize>]
        ensures { map (λ bag. bag.items) result.now ≡ self.now }
    {
        self.list.as_slice()
    }
}

/// Whether the numbers stand at one of the places.
fn stand_at(bags: &[Vec<usize>], places: &[usize], bag: &[usize]) -> bool
    ensures { IsTrue result → Contains (map (λ bag. bag.items) bags.now) bag.now }
{
    places.iter().any(|place| is_at(bags, *place, bag))
}

/// Whether the numbers stand at the place.
fn is_at(bags: &[Vec<usize>], place: usize, bag: &[usize]) -> bool
    ensures { IsTrue result → Contains (map (λ bag. bag.items) bags.now) bag.now }
{
    match bags.get(place) {
        Some(other) => other.as_slice() == bag,
        None => false,
    }
}
