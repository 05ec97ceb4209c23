//! Where to look for what has a digest.
ghost use Rattle.std.specs.Prelude.{◌≡◌, [], ℕ, OnOk, OnErr};
ghost use Rattle.dps_bags.specs.Places.{numbers_at, IsNoted, HaveSame};

use crate::NoMemory;
use std::alloc::{AllocError, Global};
use std::collections::HashMap;

/// By each digest, the numbers of those that have it.
#[derive(Drop)]
pub struct Places {
    numbers: HashMap<u64, Vec<usize>>,
}

impl Places {
    /// None yet. It takes no memory.
    pub fn new(alloc: Global) -> Places
        ensures { (d : ℕ) → numbers_at result d ≡ [] }
    {
        Places {
            numbers: HashMap::new(alloc),
        }
    }

    /// The numbers of those that have the digest.
    pub fn of(&self, digest: u64) -> &[usize]
        ensures { result.now ≡ numbers_at self.now digest }
    {
        match self.numbers.get(&digest) {
            Some(numbers) => numbers,
            None => &[],
        }
    }

    /// Notes that the one with this number has the digest. Where it fails, nothing has changed.
    pub fn add(&mut self, alloc: Global, digest: u64, number: usize) -> Result<(), NoMemory>
        ensures noted { OnOk result (IsNoted self.old self.new digest number) }
        ensures unchanged { OnErr result (HaveSame self.old self.new) }
    {
        self.numbers
            .entry(digest)?
            .or_insert(Vec::new(alloc))
            .push(number)?;
        Ok(())
    }
}
