//! Pairs that are still to become equal.
ghost use Rattle.std.specs.Prelude.{◌≡◌, ◌++◌, [], ℕ, List, IsTrue, IfOk, OnOk, MatchOption, IfSome};
ghost use Rattle.std.specs.List.{zip};
ghost use Rattle.dps_terms.specs.Tree.{Tree};
ghost use Rattle.dps_terms.specs.Seen.{seen};
ghost use Rattle.dps_terms.specs.Views.{arguments, HaveSameRoot};
ghost use Rattle.dps_unify.specs.Chain.{IsChain, Resolves};
ghost use Rattle.dps_unify.specs.Difference.{pairs_of};
ghost use Rattle.dps_unify.specs.Kept.{trees_of, IsKnown, IsKnownWith, AreNotedEqual, IsLast, IsBegun, IsTakenApart, AreApart};

use crate::bindings::Bindings;
use crate::difference::{Parts, push_arguments};
use dps_terms::{NoMemory, Term};
use indexmap::IndexSet;
use std::alloc::{AllocError, Global};

/// Two variables whose pair was taken apart, and how many pairs stood below it.
#[derive(Clone, Copy)]
pub(crate) struct Begun {
    pub(crate) left: u64,
    pub(crate) right: u64,
    pub(crate) below: usize,
}

/// Pairs that are to become equal, the next one last.
///
/// Where a pair of variables was taken apart, and no pair that came of it is left, the two are equal, whatever is bound
/// later. So such a pair is taken apart once, however often it comes up.
#[derive(Drop)]
pub(crate) struct Pending<'a> {
    pub(crate) pairs: Vec<Parts<'a>>,
    pub(crate) begun: Vec<Begun>,
    pub(crate) equal: IndexSet<(u64, u64)>,
}

impl<'a> Pending<'a> {
    /// The pairs, borrowed.
    pub(crate) fn new(alloc: Global, terms: &'a [(Term, Term)]) -> Result<Pending<'a>, NoMemory>
        ensures pairs { IfOk result (λ p. trees_of p ≡ terms.now) }
        ensures kept { IfOk result (λ p. (b : List (ℕ × Tree)) → IsKnown b p) }
    {
        let pairs = borrowed(alloc, terms)?;
        Ok(Pending {
            pairs,
            begun: Vec::new(alloc),
            equal: IndexSet::new(alloc),
        })
    }

    /// Takes the last pair.
    pub(crate) fn pop(&mut self) -> Result<Option<Parts<'a>>, NoMemory>
        ensures pairs { IfOk result (λ o. MatchOption o (trees_of self.old ≡ []) (λ d. IsLast self.old (seen d.left) (seen d.right) self.new)) }
        ensures kept { IfOk result (λ o. IfSome o (λ d. (b : List (ℕ × Tree)) → IsKnown b self.old → IsKnownWith b (seen d.left) (seen d.right) self.new)) }
    {
        self.settle()?;
        match self.pairs.pop() {
            Some(last) => Ok(Some(last)),
            None => Ok(None),
        }
    }

    /// Notes the variables that are equal now, as no pair is left of what came of theirs.
    fn settle(&mut self) -> Result<(), NoMemory>
        ensures pairs { trees_of self.new ≡ trees_of self.old }
        ensures kept { OnOk result ((b : List (ℕ × Tree)) → IsKnown b self.old → IsKnown b self.new) }
    {
        while let Some(begun) = self.begun.pop() {
            if begun.below < self.pairs.len() {
                self.begun.push(begun)?;
                return Ok(());
            }
            self.equal.insert((begun.left, begun.right))?;
        }
        Ok(())
    }

    /// Whether the variables are known to be equal.
    fn are_equal(&self, variables: Option<(u64, u64)>) -> bool
        ensures { IsTrue result → AreNotedEqual self.now variables }
    {
        match variables {
            Some(pair) => self.equal.contains(&pair),
            None => false,
        }
    }

    /// Notes the variables of a pair that is to be taken apart, and was taken out.
    fn begin(&mut self, variables: Option<(u64, u64)>) -> Result<(), NoMemory>
        ensures { OnOk result (IsBegun self.old variables self.new) }
    {
        let Some((left, right)) = variables else {
            return Ok(());
        };
        let below = self.pairs.len();
        self.begun.push(Begun { left, right, below })?;
        Ok(())
    }

    /// Takes a pair apart that was taken out, or answers two parts of it that differ at their roots.
    pub(crate) fn advance(
        &mut self,
        bindings: &Bindings<'a>,
        parts: Parts<'a>,
    ) -> Result<Option<Parts<'a>>, NoMemory>
        requires chain { IsChain bindings.now }
        requires kept { IsKnownWith bindings.now (seen parts.left) (seen parts.right) self.old }
        ensures pairs { IfOk result (λ o. MatchOption o (IsTakenApart bindings.now self.old (seen parts.entry.left) (seen parts.entry.right) self.new)
            (λ d. AreApart bindings.now self.old (seen parts.entry.left) (seen parts.entry.right) self.new (seen d.left) (seen d.right))) }
        ensures kept { IfOk result (λ o. MatchOption o (IsKnown bindings.now self.new) (λ d. IsKnownWith bindings.now (seen d.left) (seen d.right) self.new)) }
    {
        let variables = parts.variables();
        if self.are_equal(variables) {
            return Ok(None);
        }
        let left = bindings.resolve(parts.left);
        let right = bindings.resolve(parts.right);
        if !left.has_root_of(right) {
            return Ok(Some(Parts { left, right }));
        }
        self.begin(variables)?;
        push_arguments(&mut self.pairs, left, right)?;
        Ok(None)
    }
}

/// The pairs, borrowed.
fn borrowed(alloc: Global, terms: &[(Term, Term)]) -> Result<Vec<Parts<'_>>, NoMemory>
    ensures { IfOk result (λ v. pairs_of v.items ≡ terms.now) }
{
    let mut pairs = Vec::with_capacity(alloc, terms.len())?;
    for pair in terms {
        pairs.push(Parts {
            left: pair.0.whole(),
            right: pair.1.whole(),
        })?;
    }
    Ok(pairs)
}
