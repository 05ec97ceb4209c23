ghost use Rattle.std.specs.Prelude.{◌≡◌, ℕ, ◌<◌, ◌+◌, ◌^◌, IfOk, [], ◌∷◌, ◌++◌, IsTrue, ◌↔◌, OnOk, OnErr, slice_get, length, drop};
ghost use Rattle.dps_core.specs.Pool.{times, without, tickets};

use dps_path::NoMemory;
use std::alloc::Global;
use std::marker::Model;

/// The tickets of a deck or a hand, seen as a list.
#[derive(Debug, Drop)]
pub struct Tickets {
    items: Vec<u64>,
}

impl Model for Tickets {
    ghost use Rattle.std.specs.Prelude.{List, ℕ};

    ghost Value = { List ℕ };

    ghost view = { λ t. t.items.items };
}

impl Tickets {
    /// No tickets.
    pub fn new(alloc: Global) -> Tickets
        ensures { result ≡ [] }
    {
        Tickets {
            items: Vec::new(alloc),
        }
    }

    /// Whether this ticket is among them.
    pub fn has(&self, ticket: u64) -> bool
        ensures { IsTrue result ↔ (0 < times ticket self.now) }
    {
        self.items.contains(&ticket)
    }

    /// The first ticket.
    pub fn first(&self) -> Option<u64>
        ensures { result ≡ slice_get self.now 0 }
    {
        self.items.first().copied()
    }

    /// Adds a ticket at the back.
    pub fn add(&mut self, ticket: u64) -> Result<(), NoMemory>
        ensures added { OnOk result (self.new ≡ self.old ++ ticket ∷ []) }
        ensures err { OnErr result (self.new ≡ self.old) }
    {
        self.items.push(ticket)?;
        Ok(())
    }

    /// Takes out the first place of a ticket.
    pub fn take_out(&mut self, ticket: u64)
        ensures { self.new ≡ without ticket self.old }
    {
        for place in 0..self.items.len() {
            if self.items[place] == ticket {
                self.items.remove(place);
                return;
            }
        }
    }

    /// Takes out the first ticket.
    pub fn take_first(&mut self)
        requires { 0 < length self.old }
        ensures { self.new ≡ drop 1 self.old }
    {
        self.items.remove(0);
    }

    /// The tickets without the first place of this one, and then so many new ones.
    pub(crate) fn posted(&self, ticket: u64, first: u64, count: u32) -> Result<Tickets, NoMemory>
        requires { first + count < 2 ^ 64 }
        ensures { IfOk result (λ hand. hand ≡ without ticket self.now ++ tickets first count) }
    {
        let mut hand = Tickets {
            items: self.items.clone()?,
        };
        hand.take_out(ticket);
        for number in 0..count {
            hand.add(first + u64::from(number))?;
        }
        Ok(hand)
    }
}
