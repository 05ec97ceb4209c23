//! What the search is given, and what it gives.
use dps_know::Know;
use dps_solver::{Disequation, Target};
use dps_terms::{Subst, Term};
use std::alloc::{AllocError, AllocFailed};

/// A constraint system on the attacker's trees, in one configuration.
#[derive(Drop)]
pub struct Scene {
    /// The length of the frame.
    pub m: u32,
    /// The variables with their levels.
    pub levels: Vec<(u64, u32)>,
    /// The value of each entry in the configuration.
    pub values: Vec<Term>,
    pub know: Know,
    /// The trees of the input labels.
    pub labels: Vec<Term>,
    pub disequations: Vec<Disequation>,
}

/// Equations that are to hold, and targets whose trees are sought.
#[derive(Drop)]
pub struct Ask {
    pub equations: Vec<(Term, Term)>,
    pub targets: Vec<Target>,
}

/// A most general solution.
#[derive(Drop)]
pub struct Mgs {
    /// The tree of each variable of the scene.
    pub bindings: Subst,
    /// The trees of the ask's targets, in order.
    pub answers: Vec<Term>,
    /// What is put for variables in values.
    pub theta: Subst,
}

/// How many steps are counted, of how many at most.
#[derive(Clone, Copy, Debug, PartialEq, Eq)]
pub struct Steps {
    pub used: u64,
    pub budget: u64,
}

/// Why a search stops.
#[derive(Clone, Copy, Debug, PartialEq, Eq)]
pub enum Stop {
    /// The next step would pass the budget.
    Spent,
    /// Want of memory.
    Memory,
}

impl From<AllocError> for Stop {
    ghost use Rattle.std.specs.Prelude.{◌≡◌};
    ghost use Rattle.dps_search.specs.declared.scene.Stop.TheVariants.{Memory};

    ghost from_gives = { λ _ stop. stop ≡ Memory };

    fn from(_error: AllocError) -> Stop {
        Stop::Memory
    }
}

impl<T: Drop> From<AllocFailed<T>> for Stop {
    ghost use Rattle.std.specs.Prelude.{◌≡◌};
    ghost use Rattle.dps_search.specs.declared.scene.Stop.TheVariants.{Memory};

    ghost from_gives = { λ _ stop. stop ≡ Memory };

    fn from(_error: AllocFailed<T>) -> Stop {
        Stop::Memory
    }
}
