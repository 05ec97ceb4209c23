//! For each configuration one of the others that looks alike.
ghost use Rattle.std.specs.Prelude.{◌≡◌, ◌<◌, ◌^◌, length, IfOk};
ghost use Rattle.dps_replay.specs.Matching.{HaveSize, AreLevel, AreFirsts, TellApart, IsToldNext, IsPartner, IsMatching};

use crate::frames::{Frames, frame};
use crate::tests_of::add_test;
use dps_recipes::Frame;
use dps_semantics::Config;
use dps_static::{Comparison, Test, compare};
use dps_terms::NoMemory;
use dps_theory::Theory;
use std::alloc::{AllocError, Global};

/// What is found of one configuration.
#[derive(Drop)]
pub(crate) enum Partner {
    /// The place of one of the others that looks alike.
    At(usize),
    /// None does. Each is told apart by some of the tests.
    Missing(Vec<Test>),
}

/// What is found of all.
#[derive(Drop)]
pub(crate) enum Matching {
    /// The place of a partner for each.
    All(Vec<usize>),
    /// The place of one that has none, and tests that tell it from the others.
    Lone(usize, Vec<Test>),
}

/// For each end one of the others that looks alike, or an end that none looks alike to. Each frame is compared once.
pub(crate) fn match_ends(
    alloc: Global,
    theory: &Theory,
    ends: &[Config],
    others: &[Config],
) -> Result<Matching, NoMemory>
    requires { AreLevel ends.now others.now }
    ensures { IfOk result (IsMatching theory.now ends.now others.now) }
{
    let own = Frames::of(alloc, ends)?;
    let frames = Frames::of(alloc, others)?;
    let mut partners = Vec::new(alloc);
    for place in 0..ends.len() {
        let first = own.firsts[place];
        if first < place {
            partners.push(partners[first])?;
        } else {
            match partner_of(alloc, theory, frame(&ends[place]), others, &frames)? {
                Partner::At(found) => partners.push(found)?,
                Partner::Missing(tests) => return Ok(Matching::Lone(place, tests)),
            }
        }
    }
    Ok(Matching::All(partners))
}

/// One of the others that looks like the frame. One with the same frame is looked up first, since it needs no comparison.
fn partner_of(
    alloc: Global,
    theory: &Theory,
    wanted: &Frame,
    others: &[Config],
    frames: &Frames,
) -> Result<Partner, NoMemory>
    requires few { length wanted.now < 2 ^ 32 }
    requires level { HaveSize (length wanted.now) others.now }
    requires firsts { AreFirsts others.now (length others.now) frames.now.firsts.items }
    ensures { IfOk result (IsPartner theory.now wanted.now others.now) }
{
    match frames.place_of(others, wanted) {
        Some(place) => Ok(Partner::At(place)),
        None => compared(alloc, theory, wanted, others, &frames.firsts),
    }
}

/// The first of the others that looks like the frame, or tests that tell each from it.
fn compared(
    alloc: Global,
    theory: &Theory,
    wanted: &Frame,
    others: &[Config],
    firsts: &[usize],
) -> Result<Partner, NoMemory>
    requires few { length wanted.now < 2 ^ 32 }
    requires level { HaveSize (length wanted.now) others.now }
    requires firsts { AreFirsts others.now (length others.now) firsts.now }
    ensures { IfOk result (IsPartner theory.now wanted.now others.now) }
{
    let mut tests = Vec::new(alloc);
    for place in 0..others.len() {
        if is_alike(alloc, theory, wanted, others, firsts, place, &mut tests)? {
            return Ok(Partner::At(place));
        }
    }
    Ok(Partner::Missing(tests))
}

/// Whether the other at the place looks like the frame. Where it does not, a test is there that tells it. One whose frame stood
/// before is told by the test of that one.
#[tactic(auto, using(crate::proofs::Telling::for_is_alike))]
fn is_alike(
    alloc: Global,
    theory: &Theory,
    wanted: &Frame,
    others: &[Config],
    firsts: &[usize],
    place: usize,
    tests: &mut Vec<Test>,
) -> Result<bool, NoMemory>
    requires few { length wanted.now < 2 ^ 32 }
    requires level { HaveSize (length wanted.now) others.now }
    requires firsts { AreFirsts others.now (length others.now) firsts.now }
    requires within { place < length others.now }
    requires before { TellApart theory.now wanted.now others.now place tests.old.items }
    ensures { IfOk result (λ alike. IsToldNext theory.now wanted.now others.now place tests.new.items alike) }
{
    if firsts[place] < place {
        return Ok(false);
    }
    let answer = compare(alloc, theory, wanted, frame(&others[place]))?;
    match answer {
        Comparison::Same => Ok(true),
        Comparison::Differ(test) => {
            add_test(tests, test)?;
            Ok(false)
        }
    }
}
