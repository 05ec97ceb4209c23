//! Calls with ample memory.
use crate::Know;
use dps_terms::{NoMemory, Subst, Sym, Term};
use std::alloc::Global;

/// A symbol over the two.
fn over(alloc: Global, first: Term, second: Term) -> Result<Term, NoMemory> {
    let mut arguments = Vec::with_capacity(alloc, 2)?;
    arguments.push(first)?;
    arguments.push(second)?;
    Term::app(alloc, Sym { number: 0 }, arguments)
}

/// Entry 1 has the recipe `ax1`, and entry 2 the symbol over entry 1 and variable 7, of which there is a composition too.
fn known(alloc: Global) -> Result<Know, NoMemory> {
    let mut know = Know::new(alloc);
    know.add(Term::ax(alloc, 1)?, 1)?;
    know.add(
        over(alloc, Term::entry(alloc, 1)?, Term::var(alloc, 7)?)?,
        2,
    )?;
    let composition = over(alloc, Term::entry(alloc, 1)?, Term::var(alloc, 7)?)?;
    if know.entries() == 2 && !know.recorded(2) {
        know.record(2, composition);
    }
    know.set_ax(Term::entry(alloc, 2)?)?;
    Ok(know)
}

/// The same in a copy, with the handle of this number in the place of variable 7.
fn bound(alloc: Global, handle: u32) -> Result<Know, NoMemory> {
    let mut by = Subst::empty(alloc);
    if by.get(7).is_none() {
        by.bind(7, Term::ax(alloc, handle)?)?;
    }
    let mut copy = known(alloc)?.copy(alloc)?;
    copy.apply(alloc, &by)?;
    Ok(copy)
}

/// Whether entry 2 has the symbol over `ax1` and this handle for its recipe, and only its composition is not normal.
fn is_known(alloc: Global, handle: u32) -> Result<bool, NoMemory> {
    let know = bound(alloc, handle)?;
    let recipe = know.recipe(alloc, &Term::entry(alloc, 2)?)?;
    let wanted = over(alloc, Term::ax(alloc, 1)?, Term::ax(alloc, handle)?)?;
    let composition = over(alloc, Term::entry(alloc, 1)?, Term::ax(alloc, handle)?)?;
    let other = over(alloc, Term::entry(alloc, 2)?, Term::ax(alloc, handle)?)?;
    Ok(recipe.equals(&wanted) && !know.normal(&composition) && know.normal(&other))
}

#[test]
fn knows(rt: HostRuntime) {
    let alloc = rt.alloc();
    for handle in 1..4 {
        assert!(rt; is_known(alloc, handle) == Ok(true), "ax{handle}");
    }
}
