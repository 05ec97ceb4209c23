//! Communications that nobody sees.
ghost use Rattle.std.specs.Prelude.{◌<◌, length, IfOk, IfSome, MatchOption};
ghost use Rattle.std.specs.List.Sorted.{IsNonDecreasing};
ghost use Rattle.dps_terms.specs.Kinds.{IsClosed};
ghost use Rattle.dps_theory.specs.Theory.{IsAccepted};
ghost use Rattle.dps_semantics.specs.Parts.{AreNumbers, AreAllNumbers, OneStandsFor, StandForJust, parts_of};
ghost use Rattle.dps_semantics.specs.Coming.{ComesTo, ComesByMeeting};
ghost use Rattle.dps_semantics.specs.Meeting.{Sends, SendsNothing, Takes, TakesNothing, TakesAt, IsTaken, MeetsAt, LeadsOn};

use crate::coming::comes_to;
use crate::parts::Parts;
use crate::putting::put;
use dps_bags::{Bags, is_repeated, joined, without};
use dps_process::{Problem, Process, ProcessView};
use dps_recipes::evaluate;
use dps_terms::{NoMemory, Term};
use std::alloc::{AllocError, Global};

/// A message on its way: its channel, and what is left of the part that sent it.
#[derive(Drop)]
struct Sent {
    channel: u32,
    message: Term,
    then: Process,
}

/// All bags to which communications lead from these, which are among them.
///
/// Each bag that is found is asked once for those to which one communication leads.
pub(crate) fn reached(
    alloc: Global,
    problem: &Problem,
    parts: &mut Parts,
    bags: Bags,
) -> Result<Bags, NoMemory>
    requires { AreAllNumbers parts.old bags }
    ensures { IfOk result (StandForJust (LeadsOn problem.now.model problem.now.signature problem.now.theory (OneStandsFor parts.old bags)) parts.old parts.new) }
{
    let mut found = bags;
    for index in 0..usize::MAX {
        if index >= found.len() {
            return Ok(found);
        }
        let more = after_meetings(alloc, problem, parts, found.bag(index))?;
        found.join(alloc, more)?;
    }
    // No memory holds so many bags.
    Err(AllocError)
}

/// The bags to which one communication leads from the bag.
fn after_meetings(
    alloc: Global,
    problem: &Problem,
    parts: &mut Parts,
    bag: &[usize],
) -> Result<Bags, NoMemory>
    requires numbers { AreNumbers parts.old bag.now }
    requires ascending { IsNonDecreasing bag.now }
    ensures { IfOk result (StandForJust (ComesByMeeting problem.now.model problem.now.signature problem.now.theory (parts_of parts.old bag.now)) parts.old parts.new) }
{
    let mut found = Bags::new(alloc);
    for index in 0..bag.len() {
        if !is_repeated(bag, index) {
            let more = meetings_at(alloc, problem, parts, bag, index)?;
            found.join(alloc, more)?;
        }
    }
    Ok(found)
}

/// Those to which communications lead that this part begins.
fn meetings_at(
    alloc: Global,
    problem: &Problem,
    parts: &mut Parts,
    bag: &[usize],
    index: usize,
) -> Result<Bags, NoMemory>
    requires within { index < length bag.now }
    requires numbers { AreNumbers parts.old bag.now }
    requires ascending { IsNonDecreasing bag.now }
    ensures { IfOk result (StandForJust (MeetsAt problem.now.model problem.now.signature problem.now.theory (parts_of parts.old bag.now) index) parts.old parts.new) }
{
    match message_of(alloc, problem, parts.part(bag[index]))? {
        Some(sent) => {
            let others = without(alloc, bag, index)?;
            let ones = comes_to(alloc, problem, parts, &sent.then)?;
            receptions(alloc, problem, parts, &sent, &ones, &others)
        }
        None => Ok(Bags::new(alloc)),
    }
}

/// The message of an output on a channel on which parts may communicate unseen, and `None` exactly where there is none.
fn message_of(alloc: Global, problem: &Problem, part: &Process) -> Result<Option<Sent>, NoMemory>
    ensures sends { IfOk result (λ o. MatchOption o (SendsNothing problem.now.model problem.now.signature problem.now.theory part.now) (λ sent. Sends problem.now.model problem.now.signature problem.now.theory part.now sent.channel sent.message sent.then)) }
    ensures closed { IfOk result (λ o. IfSome o (λ sent. IsClosed sent.message)) }
    ensures accepted { IsAccepted problem.now.theory }
{
    let theory = problem.theory();
    let ProcessView::Output(channel, term, then) = part.view() else {
        return Ok(None);
    };
    if !problem.may_meet(channel) {
        return Ok(None);
    }
    match evaluate(alloc, theory, term)? {
        Some(message) => {
            let then = then.copy(alloc)?;
            Ok(Some(Sent {
                channel,
                message,
                then,
            }))
        }
        None => Ok(None),
    }
}

/// Those to which it leads that one of the others takes the message.
fn receptions(
    alloc: Global,
    problem: &Problem,
    parts: &mut Parts,
    sent: &Sent,
    ones: &Bags,
    others: &[usize],
) -> Result<Bags, NoMemory>
    requires closed { IsClosed sent.now.message }
    requires ones { StandForJust (ComesTo problem.now.theory sent.now.then) parts.old parts.old ones.now }
    requires numbers { AreNumbers parts.old others.now }
    requires ascending { IsNonDecreasing others.now }
    ensures { IfOk result (StandForJust (IsTaken problem.now.theory sent.now.channel sent.now.message sent.now.then (parts_of parts.old others.now)) parts.old parts.new) }
{
    let mut found = Bags::new(alloc);
    for index in 0..others.len() {
        if !is_repeated(others, index) {
            let more = reception_at(alloc, problem, parts, sent, ones, others, index)?;
            found.join(alloc, more)?;
        }
    }
    Ok(found)
}

/// Those to which it leads that this part takes the message.
fn reception_at(
    alloc: Global,
    problem: &Problem,
    parts: &mut Parts,
    sent: &Sent,
    ones: &Bags,
    others: &[usize],
    index: usize,
) -> Result<Bags, NoMemory>
    requires within { index < length others.now }
    requires closed { IsClosed sent.now.message }
    requires ones { StandForJust (ComesTo problem.now.theory sent.now.then) parts.old parts.old ones.now }
    requires numbers { AreNumbers parts.old others.now }
    requires ascending { IsNonDecreasing others.now }
    ensures { IfOk result (StandForJust (TakesAt problem.now.theory sent.now.channel sent.now.message sent.now.then (parts_of parts.old others.now) index) parts.old parts.new) }
{
    match taken(alloc, parts.part(others[index]), sent)? {
        Some(then) => {
            let theirs = comes_to(alloc, problem, parts, &then)?;
            let rest = Bags::of(alloc, without(alloc, others, index)?)?;
            let both = joined(alloc, &theirs, &rest)?;
            joined(alloc, ones, &both)
        }
        None => Ok(Bags::new(alloc)),
    }
}

/// What the part is once it has taken the message, and `None` exactly where it does not take it.
fn taken(alloc: Global, part: &Process, sent: &Sent) -> Result<Option<Process>, NoMemory>
    requires { IsClosed sent.now.message }
    ensures { IfOk result (λ o. MatchOption o (TakesNothing part.now sent.now.channel sent.now.message) (Takes part.now sent.now.channel sent.now.message)) }
{
    match part.view() {
        ProcessView::Input(channel, variable, then) => {
            if channel != sent.channel {
                return Ok(None);
            }
            let message = sent.message.copy(alloc)?;
            let then = put(alloc, variable, message, then)?;
            Ok(Some(then))
        }
        _ => Ok(None),
    }
}
