//! Ends beside their partners.
ghost use Rattle.std.specs.Prelude.{◌≡◌, ◌<◌, length, get_or, IfOk};
ghost use Rattle.dps_semantics.specs.Once.{config_at};
ghost use Rattle.dps_replay.specs.Matching.{AreLevel, AreWithin, ArePaired, IsVerdict};

use crate::Replay;
use crate::matching::{Matching, match_ends};
use dps_process::Process;
use dps_recipes::Frame;
use dps_semantics::Config;
use dps_terms::{NoMemory, Term};
use dps_theory::Theory;
use std::alloc::{AllocError, Global};

/// An end that none of the others looks like, or a pair for each end.
#[tactic(auto, using(crate::proofs::Partners::for_verdict))]
pub(crate) fn verdict(
    alloc: Global,
    theory: &Theory,
    mut ends: Vec<Config>,
    others: &[Config],
) -> Result<Replay, NoMemory>
    requires { AreLevel ends.items others.now }
    ensures { IfOk result (IsVerdict theory.now ends.items others.now) }
{
    match match_ends(alloc, theory, &ends, others)? {
        Matching::Lone(place, tests) => Ok(Replay::Attack {
            end: ends.swap_remove(place),
            tests,
        }),
        Matching::All(partners) => {
            let found = pairs(alloc, ends, others, &partners)?;
            Ok(Replay::Matched { pairs: found })
        }
    }
}

/// Each end beside its partner.
fn pairs(
    alloc: Global,
    ends: Vec<Config>,
    others: &[Config],
    partners: &[usize],
) -> Result<Vec<(Config, Config)>, NoMemory>
    requires { AreWithin ends.items others.now partners.now }
    ensures { IfOk result (λ pairs. ArePaired ends.items others.now partners.now 0 pairs.items) }
{
    let mut left = ends;
    let mut pairs = Vec::with_capacity(alloc, left.len())?;
    while let Some(end) = left.pop() {
        let other = partner(alloc, others, partners, left.len())?;
        pairs.push((end, other))?;
    }
    Ok(pairs)
}

/// The partner of the end at the place, in memory of its own.
fn partner(
    alloc: Global,
    others: &[Config],
    partners: &[usize],
    place: usize,
) -> Result<Config, NoMemory>
    requires place { place < length partners.now }
    requires partner { get_or partners.now place 0 < length others.now }
    ensures { IfOk result (λ config. config ≡ config_at others.now (get_or partners.now place 0)) }
{
    let partner = partners[place];
    let config = copy(alloc, &others[partner])?;
    Ok(config)
}

/// The same configuration, in memory of its own.
fn copy(alloc: Global, config: &Config) -> Result<Config, NoMemory>
    ensures { IfOk result (λ copy. copy ≡ config.now) }
{
    let parts = processes(alloc, &config.parts)?;
    let frame = Frame {
        messages: terms(alloc, &config.frame.messages)?,
    };
    Ok(Config { parts, frame })
}

/// The same processes.
fn processes(alloc: Global, given: &[Process]) -> Result<Vec<Process>, NoMemory>
    ensures { IfOk result (λ copies. copies.items ≡ given.now) }
{
    let mut copies = Vec::with_capacity(alloc, given.len())?;
    for index in 0..given.len() {
        copies.push(given[index].copy(alloc)?)?;
    }
    Ok(copies)
}

/// The same terms.
fn terms(alloc: Global, given: &[Term]) -> Result<Vec<Term>, NoMemory>
    ensures { IfOk result (λ copies. copies.items ≡ given.now) }
{
    let mut copies = Vec::with_capacity(alloc, given.len())?;
    for index in 0..given.len() {
        copies.push(given[index].copy(alloc)?)?;
    }
    Ok(copies)
}
