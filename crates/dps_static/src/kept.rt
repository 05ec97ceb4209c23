//! Lists of kept trees, in which the place of a tree is found without a walk.
ghost use Rattle.std.specs.Prelude.{◌≡◌, ◌+◌, ◌<◌, ◌^◌, ◌++◌, ◌∷◌, [], ℕ, IfOk, IfSome, OnOk, OnErr, IsTrue, MatchOption, Some, ◌↔◌, length, slice_get};
ghost use Rattle.dps_terms.specs.Tree.{node_count};
ghost use Rattle.dps_terms.specs.Seen.{seen};
ghost use Rattle.dps_static.specs.Ways.{IsFirst, IsNotKept};
ghost use Rattle.dps_static.specs.Places.{IsPlaced, IsSized, HasSize};

use dps_terms::{NoMemory, Term, TermList, TermRef};
use indexmap::{IndexMap, IndexSet};
use std::alloc::{AllocError, Global};
use std::marker::Model;

/// Trees of more nodes than these are looked for only where a kept tree has as many, so that no digest is taken of each
/// part of a deep tree.
const SMALL: usize = 16;

/// Kept trees, in order and in one buffer, with a place for the digest of each of them: no kept tree with this digest
/// stands before it.
#[derive(Drop)]
pub(crate) struct Kept {
    trees: TermList,
    places: IndexMap<u64, usize>,
    // how many nodes the trees have that are not small
    sizes: IndexSet<usize>,
}

impl Model for Kept {
    ghost use Rattle.std.specs.Prelude.{List};
    ghost use Rattle.std.specs.Coded.{coded_list};
    ghost use Rattle.dps_terms.specs.Tree.{Tree};
    ghost use Rattle.dps_terms.specs.Stored.{tree_code};
    ghost use Rattle.dps_static.specs.Places.{ArePlacesOf, AreSizesOf};

    ghost Value = { List Tree };

    ghost coded = { coded_list tree_code };

    ghost view = { λ a. a.trees };

    ghost invariant = { λ a. ArePlacesOf a.trees a.places.entries × AreSizesOf a.trees a.sizes.keys };
}

impl Kept {
    /// No tree is kept.
    pub(crate) fn empty(alloc: Global) -> Kept
        ensures { result ≡ [] }
    {
        Kept {
            trees: TermList::empty(alloc),
            places: IndexMap::new(alloc),
            sizes: IndexSet::new(alloc),
        }
    }

    /// Keeps one more tree.
    pub(crate) fn push(&mut self, tree: TermRef<'_>) -> Result<(), NoMemory>
        ensures { OnOk result (self.new ≡ self.old ++ seen tree.entry ∷ []) }
    {
        put_place(&mut self.places, tree.digest(), self.trees.len())?;
        put_size(&mut self.sizes, tree)?;
        self.trees.push(tree)?;
        Ok(())
    }

    /// How many trees are kept.
    pub(crate) fn len(&self) -> usize
        ensures { result ≡ length self.now }
    {
        self.trees.len()
    }

    /// The kept tree at a place, counted from 0. There has to be one.
    pub(crate) fn get(&self, place: usize) -> TermRef<'_>
        requires { place < length self.now }
        ensures { slice_get self.now place ≡ Some (seen result) }
    {
        self.trees.get(place)
    }

    /// The first place, counted from 0, at which the tree is kept, and `None` exactly where it is not kept.
    pub(crate) fn place(&self, tree: TermRef<'_>) -> Option<usize>
        ensures first { MatchOption result (IsNotKept self.now (seen tree.entry)) (IsFirst self.now (seen tree.entry)) }
        ensures small { IfSome result (λ place. place + 1 < 2 ^ 64) }
    {
        if !has_size(&self.sizes, tree) {
            return None;
        }
        match self.places.get(&tree.digest()) {
            Some(start) => place_from(&self.trees, *start, tree),
            None => None,
        }
    }
}

/// Puts a place for the digest where none is.
fn put_place(places: &mut IndexMap<u64, usize>, digest: u64, place: usize) -> Result<(), NoMemory>
    ensures ok { OnOk result (IsPlaced places.old.entries digest place places.new.entries) }
    ensures err { OnErr result (places.new.entries ≡ places.old.entries) }
{
    match places.get(&digest) {
        Some(_) => Ok(()),
        None => {
            places.insert(digest, place)?;
            Ok(())
        }
    }
}

/// Puts the number of nodes there where the tree is not small.
fn put_size(sizes: &mut IndexSet<usize>, tree: TermRef<'_>) -> Result<(), NoMemory>
    ensures ok { OnOk result (IsSized sizes.old.keys (node_count (seen tree.entry)) sizes.new.keys) }
    ensures err { OnErr result (sizes.new.keys ≡ sizes.old.keys) }
{
    if tree.node_count() > SMALL {
        sizes.insert(tree.node_count())?;
    }
    Ok(())
}

/// Whether the tree is small, or its number of nodes is there.
fn has_size(sizes: &IndexSet<usize>, tree: TermRef<'_>) -> bool
    ensures { IsTrue result ↔ HasSize sizes.now.keys (node_count (seen tree.entry)) }
{
    tree.node_count() <= SMALL || sizes.contains(&tree.node_count())
}

/// The first place of the tree from a place on, before which it does not stand.
fn place_from(trees: &TermList, start: usize, tree: TermRef<'_>) -> Option<usize>
    requires { (k : ℕ) → k < start → ¬ (slice_get trees.now k ≡ Some (seen tree)) }
    ensures first { MatchOption result (IsNotKept trees.now (seen tree.entry)) (IsFirst trees.now (seen tree.entry)) }
    ensures small { IfSome result (λ place. place + 1 < 2 ^ 64) }
{
    for place in start..trees.len() {
        if trees.get(place).equals(tree) {
            return Some(place);
        }
    }
    None
}

/// The trees as kept ones.
pub(crate) fn kept_of(alloc: Global, trees: &[Term]) -> Result<Kept, NoMemory>
    ensures { IfOk result (λ kept. kept ≡ trees.now) }
{
    let mut kept = Kept::empty(alloc);
    for tree in trees {
        kept.push(tree.whole())?;
    }
    Ok(kept)
}
