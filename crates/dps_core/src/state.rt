ghost use Rattle.std.specs.Prelude.{◌≡◌, ℕ, ◌≤◌, IfOk, OnErr, IsTrue, ◌↔◌, OnOk};
ghost use Rattle.dps_core.specs.Pool.{Pool, Step, start};
ghost use Rattle.dps_core.specs.Answers.{IsAnswer, HasAtHand, HasHeld, IsFront};
ghost use Rattle.dps_core.specs.declared.event.Event.TheVariants as event;
ghost use Rattle.dps_core.specs.declared.event.Post.TheVariants.{Kids, Stop};

use crate::event::{Event, Mark, Post};
use crate::rows::{Row, drop_after, kids_of};
use crate::tickets::Tickets;
use dps_branch::StopKind;
use dps_path::{NoMemory, Path};
use std::alloc::Global;
use std::marker::Model;

/// The pool, seen as the pure machine's state.
#[derive(Debug, Drop)]
pub struct State {
    rows: Vec<Row>,
    best: Option<(u64, StopKind)>,
    halted: bool,
    decks: Vec<Tickets>,
    hands: Vec<Tickets>,
}

impl Model for State {
    ghost use Rattle.dps_core.specs.Pool.{Pool};

    ghost Value = { Pool };

    ghost view = { λ s. record { book = record { rows = s.rows.items; best = s.best; halted = s.halted }; decks = s.decks.items; hands = s.hands.items } };
}

/// Whether the ticket is in the worker's hand, and nobody has claimed it.
fn is_at_hand(rows: &[Row], hands: &[Tickets], worker: u32, ticket: u64) -> bool
    ensures { IsTrue result ↔ HasAtHand rows.now hands.now worker ticket }
{
    let Some(hand) = hands.get(worker as usize) else {
        return false;
    };
    let Some(row) = rows.get(ticket as usize) else {
        return false;
    };
    hand.has(ticket) && !row.mark.is_claimed()
}

/// Whether the deck at this place begins with the ticket.
#[tactic(auto, using(crate::proofs::Lists::front))]
fn is_front(decks: &[Tickets], place: usize, ticket: u64) -> bool
    ensures { IsTrue result ↔ IsFront decks.now place ticket }
{
    let Some(deck) = decks.get(place) else {
        return false;
    };
    let Some(first) = deck.first() else {
        return false;
    };
    first == ticket
}

/// Another place, whose deck begins with the ticket, or this place where there is none.
fn other_front(decks: &[Tickets], place: usize, ticket: u64) -> usize
    ensures { (other : ℕ) → (other ≡ place → ⊥) → IsFront decks.now other ticket → (result ≡ place → ⊥) × IsFront decks.now result ticket }
{
    for other in 0..decks.len() {
        if other != place && is_front(decks, other, ticket) {
            return other;
        }
    }
    place
}

impl State {
    /// The root's ticket is in the hand of the first worker.
    pub fn new(alloc: Global, workers: u32) -> Result<State, NoMemory>
        requires { 1 ≤ workers }
        ensures { IfOk result (λ s. s ≡ start workers) }
    {
        let mut rows = Vec::new(alloc);
        rows.push(Row {
            path: Path::root(alloc),
            mark: Mark::Open,
        })?;
        let mut first = Tickets::new(alloc);
        first.add(0)?;
        let mut decks = Vec::new(alloc);
        let mut hands = Vec::new(alloc);
        decks.push(Tickets::new(alloc))?;
        hands.push(first)?;
        for _ in 1..workers {
            decks.push(Tickets::new(alloc))?;
            hands.push(Tickets::new(alloc))?;
        }
        Ok(State {
            rows,
            best: None,
            halted: false,
            decks,
            hands,
        })
    }

    /// The ticket goes from the worker's hand to the back of its deck.
    fn push(&mut self, worker: u32, ticket: u64) -> Result<bool, NoMemory>
        ensures answer { IfOk result (λ done. IsAnswer self.old (event.Push worker ticket) done self.new) }
        ensures err { OnErr result (self.new ≡ self.old) }
    {
        let place = worker as usize;
        if place >= self.decks.len() {
            return Ok(false);
        }
        if !is_at_hand(&self.rows, &self.hands, worker, ticket) {
            return Ok(false);
        }
        self.decks[place].add(ticket)?;
        self.hands[place].take_out(ticket);
        Ok(true)
    }

    /// The first ticket of the worker's deck goes to its hand.
    #[tactic(auto, using(crate::proofs::Lists::front_rest))]
    fn pop(&mut self, worker: u32, ticket: u64) -> Result<bool, NoMemory>
        ensures answer { IfOk result (λ done. IsAnswer self.old (event.Pop worker ticket) done self.new) }
        ensures err { OnErr result (self.new ≡ self.old) }
    {
        let place = worker as usize;
        if place >= self.hands.len() {
            return Ok(false);
        }
        if !is_front(&self.decks, place, ticket) {
            return Ok(false);
        }
        self.hands[place].add(ticket)?;
        self.decks[place].take_first();
        Ok(true)
    }

    /// The first ticket of another deck goes to the worker's hand.
    #[tactic(auto, using(crate::proofs::Lists::front_rest))]
    fn steal(&mut self, worker: u32, ticket: u64) -> Result<bool, NoMemory>
        ensures answer { IfOk result (λ done. IsAnswer self.old (event.Steal worker ticket) done self.new) }
        ensures err { OnErr result (self.new ≡ self.old) }
    {
        let place = worker as usize;
        if place >= self.hands.len() {
            return Ok(false);
        }
        let other = other_front(&self.decks, place, ticket);
        if other == place {
            return Ok(false);
        }
        if !is_front(&self.decks, other, ticket) {
            return Ok(false);
        }
        self.hands[place].add(ticket)?;
        self.decks[other].take_first();
        Ok(true)
    }

    /// The worker claims the ticket, with its own path.
    fn claim(&mut self, worker: u32, ticket: u64) -> bool
        ensures { IsAnswer self.old (event.Claim worker ticket) result self.new }
    {
        let place = worker as usize;
        let index = ticket as usize;
        if place >= self.hands.len() || index >= self.rows.len() {
            return false;
        }
        if !is_at_hand(&self.rows, &self.hands, worker, ticket) {
            return false;
        }
        if self.halted {
            return true;
        }
        if self.rows[index].mark.is_waiting() {
            self.rows[index].mark = Mark::Held(worker);
        } else {
            self.hands[place].take_out(ticket);
        }
        true
    }

    /// A halt stands from now on.
    fn halt(&mut self, worker: u32, ticket: u64) -> bool
        ensures { IsAnswer self.old (event.Halt worker ticket) result self.new }
    {
        self.halted = true;
        true
    }

    /// The worker posts what it found at the ticket.
    fn post(&mut self, worker: u32, ticket: u64, found: Post) -> Result<bool, NoMemory>
        ensures answer { IfOk result (λ done. IsAnswer self.old (event.Post worker ticket found) done self.new) }
        ensures err { OnErr result (self.new ≡ self.old) }
    {
        let place = worker as usize;
        let index = ticket as usize;
        if place >= self.hands.len() || index >= self.rows.len() {
            return Ok(false);
        }
        if self.rows[index].mark.is_dropped_held_by(worker) {
            self.rows[index].mark = Mark::Dropped;
            self.hands[place].take_out(ticket);
            return Ok(true);
        }
        if !self.rows[index].mark.is_held_by(worker) {
            return Ok(false);
        }
        match found {
            Post::Kids(count) => self.post_kids(worker, ticket, count)?,
            Post::Stop(kind) => self.post_stop(worker, ticket, kind),
        }
        Ok(true)
    }

    /// Posts kids of a path that the worker holds, open.
    fn post_kids(&mut self, worker: u32, ticket: u64, count: u32) -> Result<(), NoMemory>
        requires { HasHeld self.old worker ticket }
        ensures step { OnOk result (Step self.old (event.Post worker ticket (Kids count)) self.new) }
        ensures err { OnErr result (self.new ≡ self.old) }
    {
        let place = worker as usize;
        let index = ticket as usize;
        let first = self.rows.len() as u64;
        let mut kids = kids_of(*self.rows.allocator(), &self.rows[index].path, count)?;
        let hand = self.hands[place].posted(ticket, first, count)?;
        self.rows.append(&mut kids)?;
        self.rows[index].mark = Mark::Posted;
        self.hands[place] = hand;
        Ok(())
    }

    /// Posts a stop at a path that the worker holds, open.
    fn post_stop(&mut self, worker: u32, ticket: u64, kind: StopKind)
        requires { HasHeld self.old worker ticket }
        ensures { Step self.old (event.Post worker ticket (Stop kind)) self.new }
    {
        let place = worker as usize;
        let index = ticket as usize;
        self.rows[index].mark = Mark::Posted;
        drop_after(&mut self.rows, index);
        self.best = Some((ticket, kind));
        self.hands[place].take_out(ticket);
    }

    /// One step of the machine. `false` exactly where it has no such step, and then nothing changed.
    pub fn step(&mut self, event: &Event) -> Result<bool, NoMemory>
        ensures answer { IfOk result (λ done. IsAnswer self.old event.now done self.new) }
        ensures err { OnErr result (self.new ≡ self.old) }
    {
        match *event {
            Event::Push { worker, ticket } => self.push(worker, ticket),
            Event::Pop { worker, ticket } => self.pop(worker, ticket),
            Event::Steal { worker, ticket } => self.steal(worker, ticket),
            Event::Claim { worker, ticket } => Ok(self.claim(worker, ticket)),
            Event::Post {
                worker,
                ticket,
                result: found,
            } => self.post(worker, ticket, found),
            Event::Halt { worker, ticket } => Ok(self.halt(worker, ticket)),
        }
    }
}
