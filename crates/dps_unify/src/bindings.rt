//! Bindings while a unifier is sought.
ghost use Rattle.std.specs.Prelude.{◌≡◌, ◌<◌, ◌++◌, ◌∷◌, [], None, Some, length, slice_get, OnOk, OnErr};
ghost use Rattle.std.specs.Option.{option_map};
ghost use Rattle.dps_terms.specs.Bindings.{bound, IsDistinct};
ghost use Rattle.dps_terms.specs.Seen.{seen};
ghost use Rattle.dps_unify.specs.Chain.{IsChain};

use dps_terms::{NoMemory, TermRef, TermView};
use indexmap::IndexMap;
use std::alloc::{AllocError, Global};
use std::marker::Model;

/// Distinct variables, each bound to a borrowed term, in the order in which they were bound. A variable of such a term
/// may be bound as well.
#[derive(Drop)]
pub(crate) struct Bindings<'a> {
    terms: IndexMap<u64, TermRef<'a>>,
}

impl<'a> Model for Bindings<'a> {
    ghost use Rattle.std.specs.Prelude.{ℕ, List, map};
    ghost use Rattle.std.specs.Coded.{coded_list, coded×, coded_ℕ};
    ghost use Rattle.dps_terms.specs.Tree.{Tree};
    ghost use Rattle.dps_terms.specs.Stored.{tree_code};
    ghost use Rattle.dps_terms.specs.Seen.{seen};

    ghost Value = { List (ℕ × Tree) };

    ghost coded = { coded_list (coded× coded_ℕ tree_code) };

    ghost use Rattle.dps_terms.specs.Bindings.{IsDistinct};

    ghost view = { λ a. map (λ e. (e.0, seen e.1)) a.terms.entries };

    ghost invariant = { λ a. IsDistinct (map (λ e. (e.0, seen e.1)) a.terms.entries) };
}

impl<'a> Bindings<'a> {
    /// No bindings. It takes no memory.
    pub(crate) fn empty(alloc: Global) -> Bindings<'a>
        ensures { result ≡ [] }
    {
        Bindings {
            terms: IndexMap::new(alloc),
        }
    }

    /// What is bound to the variable.
    pub(crate) fn get(&self, variable: u64) -> Option<TermRef<'a>>
        ensures { option_map seen result ≡ bound self.now variable }
    {
        match self.terms.get(&variable) {
            Some(term) => Some(*term),
            None => None,
        }
    }

    /// How many variables are bound.
    pub(crate) fn len(&self) -> usize
        ensures count { result ≡ length self.now }
        ensures distinct { IsDistinct self.now }
    {
        self.terms.len()
    }

    /// A bound variable and what it is bound to, by its place, counted from 0.
    pub(crate) fn entry(&self, index: usize) -> (u64, TermRef<'a>)
        requires { index < length self.now }
        ensures { slice_get self.now index ≡ Some (result.0, seen result.1) }
    {
        match self.terms.get_index(index) {
            Some((variable, term)) => (*variable, *term),
            None => unreachable!(),
        }
    }

    /// Binds a variable that is not bound. Where it fails, nothing has changed.
    pub(crate) fn bind(&mut self, variable: u64, term: TermRef<'a>) -> Result<(), NoMemory>
        requires { bound self.old variable ≡ None }
        ensures ok { OnOk result (self.new ≡ self.old ++ (variable, seen term.entry) ∷ []) }
        ensures err { OnErr result (self.new ≡ self.old) }
    {
        self.terms.insert(variable, term)?;
        Ok(())
    }
}

impl<'a> Bindings<'a> {
    ghost use Rattle.dps_unify.specs.Chain.{Resolves};

    /// What the term is bound to, as far as it is a bound variable.
    pub(crate) fn resolve(&self, term: TermRef<'a>) -> TermRef<'a>
        requires { IsChain self.now }
        ensures { Resolves self.now (seen term.entry) (seen result) }
    {
        let mut at = term;
        while let TermView::Var(number) = at.view() {
            match self.get(number) {
                Some(next) => at = next,
                None => return at,
            }
        }
        at
    }
}
