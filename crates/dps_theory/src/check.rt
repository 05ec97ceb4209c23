//! Whether rules make an accepted theory.
ghost use Rattle.std.specs.Prelude.{◌≡◌, ◌<◌, ◌+◌, ◌^◌, ℕ, true, List, map, length, take, slice_get, Some, All, OnOk, IfOk, IfErr, MatchOption};
ghost use Rattle.dps_signature.specs.Signature.{Shape};
ghost use Rattle.dps_theory.specs.Theory.{Rule as RuleValue, IsAccepted};
ghost use Rattle.dps_theory.specs.Held.{shape_of, theory_of};
ghost use Rattle.dps_theory.specs.Overlaps.{HasSmallVariables};
ghost use Rattle.dps_theory.specs.Index.{has_root, places, IsIndexOf};
ghost use Rattle.dps_theory.specs.Checking.{IsRefused};
ghost use Rattle.dps_theory.specs.Judging.{AreJudged, AgreeBefore, IsOverlapBefore};

use crate::Rule;
use crate::form::{FormFault, form_fault};
use crate::index::RootIndex;
use crate::overlap::overlap;
use crate::shapes::SymbolShape;
use dps_terms::{NoMemory, Subst, TermView};
use std::alloc::Global;

/// Why rules make no accepted theory. The rules are counted from 1.
#[derive(Drop)]
pub enum TheoryRefusal {
    /// A rule is refused by itself.
    Form {
        rule: u32,
        fault: FormFault,
    },
    /// The left sides of two rules have a common instance whose right sides differ. In the unifier the first rule's
    /// variables have their numbers, and those of the second are raised by the least number above all of the first's.
    Overlap {
        first: u32,
        second: u32,
        unifier: Subst,
    },
    Memory,
}

/// An overlap with an earlier rule, by the place of that rule.
#[derive(Drop)]
struct EarlierOverlap {
    earlier: u32,
    unifier: Subst,
}

/// Whether the rules make an accepted theory by themselves.
pub(crate) fn judge(
    alloc: Global,
    known: &[SymbolShape],
    rules: &[Rule],
) -> Result<(), TheoryRefusal>
    requires few { length rules.now < 2 ^ 24 }
    requires small { All HasSmallVariables rules.now }
    ensures accepted { OnOk result (IsAccepted (theory_of known.now rules.now)) }
    ensures refused { IfErr result (IsRefused (map shape_of known.now) rules.now) }
{
    let Ok(mut index) = RootIndex::empty(alloc, known.len()) else {
        return Err(TheoryRefusal::Memory);
    };
    for place in 0..rules.len() {
        let root = judge_rule(alloc, known, rules, place, &index)?;
        match index.add(root, place as u32) {
            Ok(()) => {}
            Err(_) => return Err(TheoryRefusal::Memory),
        }
    }
    Ok(())
}

/// Whether the rule at a place may join the rules before it; its left root.
fn judge_rule(
    alloc: Global,
    known: &[SymbolShape],
    rules: &[Rule],
    place: usize,
    index: &RootIndex,
) -> Result<u32, TheoryRefusal>
    requires few { length rules.now < 2 ^ 24 }
    requires small { All HasSmallVariables rules.now }
    requires inside { place < length rules.now }
    requires judged { AreJudged (map shape_of known.now) rules.now place }
    requires indexed { IsIndexOf (take place rules.now) index.now }
    ensures judged { OnOk result (AreJudged (map shape_of known.now) rules.now (place + 1)) }
    ensures root { IfOk result (λ f. f < length known.now) }
    ensures indexed { IfOk result (λ f. (r : RuleValue) → slice_get rules.now place ≡ Some r → has_root f r.left ≡ true) }
    ensures refused { IfErr result (IsRefused (map shape_of known.now) rules.now) }
{
    let rule = &rules[place];
    let number = place as u32 + 1;
    if let Some(fault) = form_fault(known, rule) {
        return Err(TheoryRefusal::Form {
            rule: number,
            fault,
        });
    }
    let TermView::App(root) = rule.left.whole().view() else {
        unreachable!()
    };
    match earlier_overlap(alloc, rules, place, index.of(root.number)) {
        Ok(None) => Ok(root.number),
        Ok(Some(found)) => Err(TheoryRefusal::Overlap {
            first: found.earlier + 1,
            second: number,
            unifier: found.unifier,
        }),
        Err(_) => Err(TheoryRefusal::Memory),
    }
}

/// The first overlap of the rule at a place with a rule before it, of which those with its left root are given.
fn earlier_overlap(
    alloc: Global,
    rules: &[Rule],
    place: usize,
    earlier: &[u32],
) -> Result<Option<EarlierOverlap>, NoMemory>
    requires small { All HasSmallVariables rules.now }
    requires inside { place < length rules.now }
    requires judged { (shapes : List Shape) × AreJudged shapes rules.now place }
    requires listed { (f : ℕ) × ((q : RuleValue) → slice_get rules.now place ≡ Some q → has_root f q.left ≡ true) × (earlier.now ≡ places (take place rules.now) f) }
    ensures { IfOk result (λ o. (q : RuleValue) → slice_get rules.now place ≡ Some q → MatchOption o (AgreeBefore rules.now place q) (λ found. IsOverlapBefore rules.now place found.earlier q found.unifier)) }
{
    for before in earlier {
        if let Some(unifier) = overlap(alloc, &rules[*before as usize], &rules[place])? {
            return Ok(Some(EarlierOverlap {
                earlier: *before,
                unifier,
            }));
        }
    }
    Ok(None)
}
