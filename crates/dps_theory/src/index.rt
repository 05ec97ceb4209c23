//! Where the rules of each destructor stand.
ghost use Rattle.std.specs.Prelude.{◌≡◌, ◌<◌, ◌^◌, ◌++◌, ◌∷◌, [], length, slice_set, replicate, All, IfOk, OnOk};
ghost use Rattle.dps_theory.specs.Index.{listed, IsIndexOf, HasRootBelow};

use crate::Rule;
use dps_terms::{NoMemory, TermView};
use std::alloc::Global;
use std::marker::Model;

/// For each symbol, by its number, the places of the rules with this symbol at their left root.
#[derive(Drop)]
pub(crate) struct RootIndex {
    by_root: Vec<Vec<u32>>,
}

impl Model for RootIndex {
    ghost use Rattle.std.specs.Prelude.{ℕ, List, map};

    ghost Value = { List (List ℕ) };

    ghost view = { λ a. map (λ v. v.items) a.by_root.items };
}

impl RootIndex {
    /// The index of no rules, for so many symbols.
    pub(crate) fn empty(alloc: Global, symbols: usize) -> Result<RootIndex, NoMemory>
        ensures { IfOk result (λ index. index ≡ replicate symbols []) }
    {
        let mut by_root = Vec::with_capacity(alloc, symbols)?;
        for _ in 0..symbols {
            by_root.push(Vec::new(alloc))?;
        }
        Ok(RootIndex { by_root })
    }

    /// A copy.
    pub(crate) fn copy(&self, alloc: Global) -> Result<RootIndex, NoMemory>
        ensures { IfOk result (λ index. index ≡ self.now) }
    {
        let mut by_root = Vec::with_capacity(alloc, self.by_root.len())?;
        for places in self.by_root.as_slice() {
            let mut copies = Vec::new(alloc);
            copies.extend_from_slice(places.as_slice())?;
            by_root.push(copies)?;
        }
        Ok(RootIndex { by_root })
    }

    /// The places of the rules of a symbol.
    pub(crate) fn of(&self, symbol: u32) -> &[u32]
        ensures { result.now ≡ listed self.now symbol }
    {
        match self.by_root.get(symbol as usize) {
            Some(places) => places.as_slice(),
            None => &[],
        }
    }

    /// Adds the place of a rule to those of a symbol that is there.
    pub(crate) fn add(&mut self, symbol: u32, place: u32) -> Result<(), NoMemory>
        requires { symbol < length self.old }
        ensures { OnOk result (self.new ≡ slice_set self.old symbol (listed self.old symbol ++ place ∷ [])) }
    {
        let places = &mut self.by_root[symbol as usize];
        places.push(place)?;
        Ok(())
    }
}

/// The index of rules that each have a symbol at their left root, for so many symbols.
pub(crate) fn index_of(alloc: Global, symbols: usize, rules: &[Rule]) -> Result<RootIndex, NoMemory>
    requires few { length rules.now < 2 ^ 25 }
    requires rooted { All (λ r. HasRootBelow symbols r.left) rules.now }
    ensures { IfOk result (IsIndexOf rules.now) }
{
    let mut index = RootIndex::empty(alloc, symbols)?;
    for (place, rule) in rules.iter().enumerate() {
        let TermView::App(root) = rule.left.whole().view() else {
            unreachable!()
        };
        index.add(root.number, place as u32)?;
    }
    Ok(index)
}
