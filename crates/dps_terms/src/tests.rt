//! Terms by each of their makers, substitutions, and terms of great depth.
use crate::{
    NoMemory, PublicName, Subst, Sym, Term, TermLeaf, TermList, TermRef, TermStack, TermView,
};
use std::alloc::Global;
use std::test::Fail;

/// The term without arguments that shows this.
fn leaf(alloc: Global, view: TermView) -> Result<Term, NoMemory> {
    match view {
        TermView::App(sym) => Term::app(alloc, sym, Vec::new(alloc)),
        TermView::Public(name) => Term::public(alloc, name),
        TermView::Private(number) => Term::private(alloc, number),
        TermView::Var(number) => Term::var(alloc, number),
        TermView::Ax(number) => Term::ax(alloc, number),
        TermView::Entry(number) => Term::entry(alloc, number),
        TermView::Rigid(number) => Term::rigid(alloc, number),
    }
}

/// Whether the leaf shows what it was made of, and equals its copy.
fn is_leaf(alloc: Global, view: TermView) -> Result<bool, NoMemory> {
    let term = leaf(alloc, view)?;
    Ok(is_copied(alloc, &term)? && shows(term.whole(), view))
}

fn shows(term: TermRef<'_>, view: TermView) -> bool {
    term.view() == view && term.arity() == 0
}

fn is_copied(alloc: Global, term: &Term) -> Result<bool, NoMemory> {
    let copy = term.whole().copy(alloc)?;
    Ok(copy == *term && term.whole().equals(copy.whole()))
}

#[test]
fn leaves(rt: HostRuntime) -> Result<(), Fail> {
    let table = [
        TermView::App(Sym { number: 1 }),
        TermView::Public(PublicName::Declared(0)),
        TermView::Public(PublicName::At(7)),
        TermView::Private(0),
        TermView::Var(18),
        TermView::Ax(12),
        TermView::Entry(3),
        TermView::Rigid(4),
    ];
    for view in table {
        assert!(&rt; is_leaf(rt.alloc(), view)?, "{view:?}");
    }
    Ok(())
}

/// The term `f(?2,f(?1,?2))`.
fn nested(alloc: Global, f: Sym) -> Result<Term, NoMemory> {
    let below = vec![in alloc; Term::var(alloc, 1)?, Term::var(alloc, 2)?]?;
    let arguments = vec![in alloc; Term::var(alloc, 2)?, Term::app(alloc, f, below)?]?;
    Term::app(alloc, f, arguments)
}

/// The same with itself in the place of `?2`.
fn doubled(alloc: Global, f: Sym) -> Result<Term, NoMemory> {
    let mut by = Subst::empty(alloc);
    by.bind(2, nested(alloc, f)?)?;
    nested(alloc, f)?.subst(alloc, &by)
}

fn has_variables(alloc: Global, term: &Term, variables: &[u64]) -> Result<bool, NoMemory> {
    let found = term.vars(alloc)?;
    Ok(found.as_slice() == variables)
}

/// What the second argument shows.
fn second(term: TermRef<'_>) -> Option<TermView> {
    if term.arity() < 2 {
        return None;
    }
    let argument = term.argument(1);
    Some(argument.view())
}

/// Whether the term shows the symbol twice, and has this size and the variables `?2` and `?1`.
fn is_nest(alloc: Global, term: &Term, f: Sym, size: u64) -> Result<bool, NoMemory> {
    let view = TermView::App(f);
    let shown = term.whole().view() == view && second(term.whole()) == Some(view);
    let same = is_copied(alloc, term)? && has_variables(alloc, term, &[2, 1])?;
    Ok(shown && same && term.size() == size)
}

#[test]
fn nested_terms(rt: HostRuntime) -> Result<(), Fail> {
    let alloc = rt.alloc();
    let f = Sym { number: 2 };
    assert!(&rt; is_nest(alloc, &nested(alloc, f)?, f, 5)?);
    assert!(&rt; is_nest(alloc, &doubled(alloc, f)?, f, 13)?);
    Ok(())
}

fn size_of(by: &Subst, variable: u64) -> u64 {
    match by.get(variable) {
        Some(term) => term.size(),
        None => 0,
    }
}

#[test]
fn bindings(rt: HostRuntime) -> Result<(), Fail> {
    let alloc = rt.alloc();
    let mut by = Subst::empty(alloc);
    assert_eq!(&rt; size_of(&by, 2), 0);
    by.bind(2, nested(alloc, Sym { number: 0 })?)?;
    assert_eq!(&rt; (size_of(&by, 2), size_of(&by, 1)), (5, 0));
    Ok(())
}

/// So many symbols with one argument, one over the other, over `?7`.
fn chain(alloc: Global, height: u32) -> Result<Term, NoMemory> {
    let mut stack = TermStack::empty(alloc);
    stack.push_leaf(TermLeaf::Var(7))?;
    for _ in 0..height {
        stack.apply(Sym { number: 3 }, 1)?;
    }
    Ok(stack.into_term())
}

/// The size of the chain with itself in the place of its variable.
fn doubled_size(alloc: Global, term: &Term) -> Result<u64, NoMemory> {
    let mut by = Subst::empty(alloc);
    by.bind(7, term.copy(alloc)?)?;
    Ok(term.subst(alloc, &by)?.size())
}

/// How many of the nodes are symbols.
fn symbol_nodes(term: TermRef<'_>) -> u64 {
    let mut count: u64 = 0;
    for node in 0..term.node_count() {
        if let TermView::App(_) = term.subterm(node).view() {
            count = count.saturating_add(1);
        }
    }
    count
}

/// The numbers of nodes and of symbols, and of the nodes after a substitution.
fn numbers(alloc: Global, height: u32) -> Result<(u64, u64, u64), NoMemory> {
    let term = chain(alloc, height)?;
    let doubled = doubled_size(alloc, &term)?;
    Ok((term.size(), symbol_nodes(term.whole()), doubled))
}

/// Whether the chain equals its copy, has the digest of its copy and not that of a shorter one, and only `?7` in it.
fn is_told(alloc: Global, height: u32) -> Result<bool, NoMemory> {
    let term = chain(alloc, height)?;
    let copied = is_copied(alloc, &term)? && has_variables(alloc, &term, &[7])?;
    let shorter = chain(alloc, height / 2)?;
    Ok(copied && term.whole().digest() != shorter.whole().digest())
}

/// No depth of a term takes stack, and no work on it more time than its size.
#[test]
fn chains(rt: HostRuntime) -> Result<(), Fail> {
    let alloc = rt.alloc();
    let table = [(1, (2, 1, 3)), (60_000, (60_001, 60_000, 120_001))];
    for (height, wanted) in table {
        assert_eq!(&rt; numbers(alloc, height)?, wanted, "{height}");
        assert!(&rt; is_told(alloc, height)?, "{height}");
    }
    Ok(())
}

/// What stands in front of the stack, after the symbol was put over two terms and taken away again.
fn popped(alloc: Global) -> Result<(u64, u64), NoMemory> {
    let mut stack = TermStack::empty(alloc);
    stack.push_leaf(TermLeaf::Ax(1))?;
    stack.push(nested(alloc, Sym { number: 2 })?.whole())?;
    stack.push_leaf(TermLeaf::Entry(2))?;
    stack.apply(Sym { number: 2 }, 2)?;
    let first = stack.pop()?;
    let second = stack.pop()?;
    Ok((first.size(), second.size()))
}

#[test]
fn terms_come_off(rt: HostRuntime) -> Result<(), Fail> {
    assert_eq!(&rt; popped(rt.alloc())?, (7, 1));
    Ok(())
}

#[test]
fn copies(rt: HostRuntime) -> Result<(), Fail> {
    let alloc = rt.alloc();
    let mut by = Subst::empty(alloc);
    by.bind(2, nested(alloc, Sym { number: 0 })?)?;
    assert_eq!(&rt; size_of(&by.copy(alloc)?, 2), 5);
    Ok(())
}

/// How many nodes the terms of a list have that was made of a nest, a leaf and the nest again.
fn listed(alloc: Global) -> Result<Vec<usize>, NoMemory> {
    let mut list = TermList::empty(alloc);
    let nest = nested(alloc, Sym { number: 2 })?;
    list.push(nest.whole())?;
    list.push(Term::ax(alloc, 1)?.whole())?;
    list.push(nest.whole())?;
    let mut counts = Vec::new(alloc);
    for index in 0..list.len() {
        counts.push(list.get(index).node_count())?;
    }
    Ok(counts)
}

#[test]
fn lists(rt: HostRuntime) -> Result<(), Fail> {
    let counts = listed(rt.alloc())?;
    assert!(&rt; counts.as_slice() == [5, 1, 5].as_slice());
    Ok(())
}
