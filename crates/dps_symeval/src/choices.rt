//! Rules chosen for the destructors of some terms, and what the terms evaluate to by them.
ghost use Rattle.std.specs.Prelude.{◌≡◌, ◌≤◌, ◌∷◌, [], ◌++◌, IfOk, OnOk};
ghost use Rattle.dps_terms.specs.Seen.{seen};
ghost use Rattle.dps_symeval.specs.Agenda.{no_terms, with_result, constructed_last};

use dps_terms::{NoMemory, Sym, Term, TermRef};
use std::alloc::Global;
use std::marker::Model;

/// A rule is chosen for each destructor of some terms. Where the equations hold, the terms evaluate to the results.
#[derive(Drop)]
pub(crate) struct Choices {
    pub(crate) equations: Vec<(Term, Term)>,
    pub(crate) results: Vec<Term>,
    /// The first number that no variable has had.
    pub(crate) next: u64,
}

impl Model for Choices {
    ghost use Rattle.dps_symeval.specs.Cases.{Choices};
    ghost use Rattle.dps_symeval.specs.Stored.{choices_code};

    ghost Value = { Choices };

    ghost coded = { choices_code };

    ghost view = { λ a. record { equations = a.equations.items; results = a.results.items; next = a.next } };
}

impl Choices {
    /// No terms.
    pub(crate) fn start(alloc: Global, next: u64) -> Choices
        ensures { result ≡ no_terms next }
    {
        Choices {
            equations: Vec::new(alloc),
            results: Vec::new(alloc),
            next,
        }
    }

    /// Adds a term that evaluates to itself.
    pub(crate) fn add(&mut self, alloc: Global, term: TermRef<'_>) -> Result<(), NoMemory>
        ensures { OnOk result (self.new ≡ with_result self.old (seen term.entry)) }
    {
        let result = term.copy(alloc)?;
        self.results.push(result)?;
        Ok(())
    }

    /// Puts the symbol over the last results, of which it takes so many, or all where there are fewer.
    pub(crate) fn construct(&mut self, alloc: Global, sym: Sym, arity: u32) -> Result<(), NoMemory>
        requires { arity ≤ 8 }
        ensures { OnOk result (self.new ≡ constructed_last sym arity self.old) }
    {
        let front = self.results.len().saturating_sub(arity as usize);
        let arguments = self.results.split_off(front)?;
        let result = Term::app(alloc, sym, arguments)?;
        self.results.push(result)?;
        Ok(())
    }
}
