//! Bags, each once.
ghost use Rattle.std.specs.Prelude.{◌≡◌, ◌⊎◌, ◌↔◌, ◌<◌, ◌++◌, ℕ, List, [], map, length, get_or, IsTrue, IfOk, OnOk, Contains};
ghost use Rattle.std.specs.List.Sorted.{IsNonDecreasing};
ghost use Rattle.dps_bags.specs.Bags.{IsLonger, AreKept, IsAt, StandsAt};

use crate::NoMemory;
use crate::digest::with_numbers;
use crate::places::Places;
use std::alloc::{AllocError, Global};
use std::marker::Model;

/// Lists of numbers, each in ascending order, and where those stand that have a digest.
#[derive(Drop)]
pub struct Bags {
    list: Vec<Vec<usize>>,
    places: Places,
}

impl Model for Bags {
    ghost use Rattle.std.specs.Prelude.{List, ℕ, map};
    ghost use Rattle.std.specs.Coded.{coded_list, coded_ℕ};

    ghost Value = { List (List ℕ) };

    ghost coded = { coded_list (coded_list coded_ℕ) };

    ghost view = { λ a. map (λ bag. bag.items) a.list.items };

    ghost use Rattle.dps_bags.specs.Bags.{AreKept, AreBagsNoted};

    ghost invariant = { λ a. AreKept (map (λ bag. bag.items) a.list.items) × AreBagsNoted (map (λ bag. bag.items) a.list.items) a.places };
}

impl Bags {
    /// None yet. It takes no memory.
    pub fn new(alloc: Global) -> Bags
        ensures { result ≡ [] }
    {
        Bags {
            list: Vec::new(alloc),
            places: Places::new(alloc),
        }
    }

    /// The one bag. Its numbers are in ascending order.
    pub fn of(alloc: Global, bag: Vec<usize>) -> Result<Bags, NoMemory>
        requires { IsNonDecreasing bag.items }
        ensures { IfOk result (λ bags. (b : List ℕ) → Contains bags b ↔ (b ≡ bag.items)) }
    {
        let mut bags = Bags::new(alloc);
        bags.add(alloc, bag)?;
        Ok(bags)
    }

    /// Adds a bag at the end, where it is new: it is compared with those of its digest alone. Its numbers are in ascending
    /// order.
    pub fn add(&mut self, alloc: Global, bag: Vec<usize>) -> Result<(), NoMemory>
        requires { IsNonDecreasing bag.items }
        ensures added { OnOk result ((b : List ℕ) → Contains self.new b ↔ (Contains self.old b ⊎ (b ≡ bag.items))) }
        ensures longer { OnOk result (IsLonger self.old self.new) }
    {
        let digest = with_numbers(0, &bag);
        if stand_at(&self.list, self.places.of(digest), &bag) {
            return Ok(());
        }
        self.places.add(alloc, digest, self.list.len())?;
        self.list.push(bag)?;
        Ok(())
    }

    /// Adds the bags of the other at the end, where they are new.
    pub fn join(&mut self, alloc: Global, other: Bags) -> Result<(), NoMemory>
        ensures added { OnOk result ((b : List ℕ) → Contains self.new b ↔ (Contains self.old b ⊎ Contains other b)) }
        ensures longer { OnOk result (IsLonger self.old self.new) }
    {
        let mut left = other.list;
        while let Some(bag) = left.pop() {
            self.add(alloc, bag)?;
        }
        Ok(())
    }

    /// How many there are. No two are the same.
    pub fn len(&self) -> usize
        ensures count { result ≡ length self.now }
        ensures kept { AreKept self.now }
    {
        self.list.len()
    }

    /// The bag at the place.
    pub fn bag(&self, place: usize) -> &[usize]
        requires { place < length self.now }
        ensures there { result.now ≡ get_or self.now place [] }
        ensures ascending { IsNonDecreasing result.now }
    {
        self.list[place].as_slice()
    }
}

/// Whether the numbers stand at one of the places.
fn stand_at(bags: &[Vec<usize>], places: &[usize], bag: &[usize]) -> bool
    ensures { IsTrue result ↔ StandsAt (map (λ bag. bag.items) bags.now) places.now bag.now }
{
    places.iter().any(|place| is_at(bags, *place, bag))
}

/// Whether the numbers stand at the place.
fn is_at(bags: &[Vec<usize>], place: usize, bag: &[usize]) -> bool
    ensures { IsTrue result ↔ IsAt (map (λ bag. bag.items) bags.now) place bag.now }
{
    match bags.get(place) {
        Some(other) => other.as_slice() == bag,
        None => false,
    }
}
