//! Disequations under bindings.
use crate::{Disequation, excluded};
use dps_terms::{NoMemory, PublicName, Subst, Sym, Term};
use std::alloc::Global;

/// A symbol over the term.
fn over(alloc: Global, term: Term) -> Result<Term, NoMemory> {
    let mut arguments = Vec::with_capacity(alloc, 1)?;
    arguments.push(term)?;
    Term::app(alloc, Sym { number: 0 }, arguments)
}

/// The symbol, so many times, over the attacker's own name.
fn tower(alloc: Global, height: u32) -> Result<Term, NoMemory> {
    let mut term = Term::public(alloc, PublicName::At(0))?;
    for _ in 0..height {
        term = over(alloc, term)?;
    }
    Ok(term)
}

/// Says that variable 1 is no symbol over variable 9, which is free.
fn no_symbol(alloc: Global) -> Result<Disequation, NoMemory> {
    let pattern = over(alloc, Term::var(alloc, 9)?)?;
    let mut free = Vec::with_capacity(alloc, 1)?;
    free.push(9)?;
    let mut pairs = Vec::with_capacity(alloc, 1)?;
    pairs.push((Term::var(alloc, 1)?, pattern))?;
    Ok(Disequation { free, pairs })
}

/// Whether a tower of this height for variable 1 is excluded.
fn excludes(alloc: Global, height: u32) -> Result<bool, NoMemory> {
    let mut by = Subst::empty(alloc);
    let tree = tower(alloc, height)?;
    if by.get(1).is_none() {
        by.bind(1, tree)?;
    }
    let disequation = no_symbol(alloc)?;
    excluded(alloc, &by, &[disequation])
}

#[test]
fn towers(rt: HostRuntime) {
    let alloc = rt.alloc();
    for (height, wanted) in &[(0, false), (1, true), (2, true)] {
        assert!(rt; excludes(alloc, *height) == Ok(*wanted), "{height}");
    }
}
