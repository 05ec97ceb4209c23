ghost use Rattle.std.specs.Prelude.{◌≡◌, IsTrue, ◌↔◌};
ghost use Rattle.dps_core.specs.declared.event.Mark.TheVariants.{Open, Held, DroppedHeld};
ghost use Rattle.dps_core.specs.Book.{is_open, is_claimed, drop_mark};

use dps_branch::StopKind;

/// How far a path has come.
#[derive(Clone, Copy, Debug, PartialEq, Eq)]
pub enum Mark {
    /// Nobody has it yet.
    Open,
    /// A worker has claimed it, and its post is still to come. It is open too.
    Held(u32),
    /// Its post has come.
    Posted,
    /// A stop before it has made it idle.
    Dropped,
    /// It was dropped while a worker held it, and its post is still to come.
    DroppedHeld(u32),
}

impl Mark {
    /// Whether nobody has it yet.
    pub fn is_waiting(&self) -> bool
        ensures { IsTrue result ↔ (self.now ≡ Open) }
    {
        match self {
            Mark::Open => true,
            _ => false,
        }
    }

    /// Whether it is open: nobody has it yet, or a worker holds it and has not heard of a stop before it.
    pub fn is_open(&self) -> bool
        ensures { result ≡ is_open self.now }
    {
        match self {
            Mark::Open | Mark::Held(_) => true,
            _ => false,
        }
    }

    /// Whether a worker holds it and has still to post.
    pub fn is_claimed(&self) -> bool
        ensures { result ≡ is_claimed self.now }
    {
        match self {
            Mark::Held(_) | Mark::DroppedHeld(_) => true,
            _ => false,
        }
    }

    /// Whether this worker holds it, open.
    pub fn is_held_by(&self, worker: u32) -> bool
        ensures { IsTrue result ↔ (self.now ≡ Held worker) }
    {
        match self {
            Mark::Held(holder) => *holder == worker,
            _ => false,
        }
    }

    /// Whether this worker holds it, and it was dropped meanwhile.
    pub fn is_dropped_held_by(&self, worker: u32) -> bool
        ensures { IsTrue result ↔ (self.now ≡ DroppedHeld worker) }
    {
        match self {
            Mark::DroppedHeld(holder) => *holder == worker,
            _ => false,
        }
    }

    /// The mark after a drop of what is open.
    pub fn dropped(&self) -> Mark
        ensures { result ≡ drop_mark self.now }
    {
        match self {
            Mark::Open => Mark::Dropped,
            Mark::Held(holder) => Mark::DroppedHeld(*holder),
            _ => *self,
        }
    }
}

/// What a worker found at a path.
#[derive(Clone, Copy, Debug, PartialEq, Eq)]
pub enum Post {
    /// So many kids.
    Kids(u32),
    /// A stop.
    Stop(StopKind),
}

/// What a claim answers.
#[derive(Clone, Copy, Debug, PartialEq, Eq)]
pub enum Claim {
    /// The worker holds the path now.
    Live,
    /// The path is not to be expanded.
    Dead,
    /// A halt stands.
    Halted,
}

/// What a post answers.
#[derive(Clone, Copy, Debug, PartialEq, Eq)]
pub enum Posted {
    /// The path was dropped meanwhile.
    Dropped,
    /// The kids are open, the first with this ticket.
    Kids(u64),
    /// This is the best stop now.
    Best,
}

/// One step of the running system.
#[derive(Clone, Copy, Debug, PartialEq, Eq)]
pub enum Event {
    Push {
        worker: u32,
        ticket: u64,
    },
    Pop {
        worker: u32,
        ticket: u64,
    },
    Steal {
        worker: u32,
        ticket: u64,
    },
    Claim {
        worker: u32,
        ticket: u64,
    },
    Post {
        worker: u32,
        ticket: u64,
        result: Post,
    },
    Halt {
        worker: u32,
        ticket: u64,
    },
}
