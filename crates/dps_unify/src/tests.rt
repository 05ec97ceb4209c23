//! Tables of pairs and of patterns.
use crate::{VarOrder, extend_match, matches, mgu, rename};
use dps_terms::{NoMemory, Subst, Sym, Term, TermLeaf, TermStack};
use std::alloc::Global;
use std::test::Fail;

/// A term over variables, by its shape.
#[derive(Clone, Copy)]
enum Shape {
    Var(u64),
    /// `f(?n)`.
    F(u64),
    /// `g(?m,?n)`.
    G(u64, u64),
}

fn made(alloc: Global, shape: Shape) -> Result<Term, NoMemory> {
    match shape {
        Shape::Var(n) => Term::var(alloc, n),
        Shape::F(n) => Term::app(
            alloc,
            Sym { number: 0 },
            vec![in alloc; Term::var(alloc, n)?]?,
        ),
        Shape::G(m, n) => Term::app(
            alloc,
            Sym { number: 1 },
            vec![in alloc; Term::var(alloc, m)?, Term::var(alloc, n)?]?,
        ),
    }
}

/// Whether the substitution binds the variable to this term.
fn binds(alloc: Global, unifier: &Subst, variable: u64, shape: Shape) -> bool {
    match (unifier.get(variable), made(alloc, shape)) {
        (Some(term), Ok(want)) => term.equals(&want),
        _ => false,
    }
}

fn unifier(
    alloc: Global,
    levels: &[(u64, u32)],
    pairs: &[(Shape, Shape)],
) -> Result<Option<Subst>, NoMemory> {
    let order = VarOrder {
        levels: levels.to_vec(alloc)?,
    };
    let mut terms = Vec::new(alloc);
    for (left, right) in pairs {
        terms.push((made(alloc, *left)?, made(alloc, *right)?))?;
    }
    mgu(alloc, &order, &terms)
}

/// Whether a unifier is found that binds the variable to this term.
fn unifies(
    alloc: Global,
    levels: &[(u64, u32)],
    pairs: &[(Shape, Shape)],
    variable: u64,
    shape: Shape,
) -> bool {
    match unifier(alloc, levels, pairs) {
        Ok(Some(found)) => binds(alloc, &found, variable, shape),
        _ => false,
    }
}

fn fails(alloc: Global, pairs: &[(Shape, Shape)]) -> bool {
    matches!(unifier(alloc, &[], pairs), Ok(None))
}

#[test]
fn unifiers(rt: HostRuntime) {
    let alloc = rt.alloc();
    let pair = [(Shape::Var(1), Shape::Var(2))];
    assert!(rt; unifies(alloc, &[], &pair, 2, Shape::Var(1)));
    assert!(rt; unifies(alloc, &[(1, 3), (2, 0)], &pair, 1, Shape::Var(2)));
    assert!(rt; unifies(alloc, &[(2, 5)], &pair, 1, Shape::Var(2)));
    let nested = [
        (Shape::G(3, 3), Shape::G(1, 2)),
        (Shape::Var(1), Shape::F(4)),
    ];
    assert!(rt; unifies(alloc, &[], &nested, 2, Shape::F(4)));
    let cycle = [(Shape::Var(1), Shape::F(2)), (Shape::Var(2), Shape::F(1))];
    assert!(rt; fails(alloc, &cycle));
    assert!(rt; fails(alloc, &[(Shape::F(1), Shape::G(1, 1))]));
}

/// Two towers of doubled variables whose tops are to be equal, and last a pair that nothing unifies. There are more than
/// 2^40 pairs of places in the towers.
fn towers(alloc: Global) -> Result<Vec<(Shape, Shape)>, NoMemory> {
    let mut pairs = Vec::new(alloc);
    pairs.push((Shape::F(0), Shape::G(0, 0)))?;
    pairs.push((Shape::Var(40), Shape::Var(140)))?;
    for n in 0..40 {
        pairs.push((Shape::Var(n + 1), Shape::G(n, n)))?;
        pairs.push((Shape::Var(n + 101), Shape::G(n + 100, n + 100)))?;
    }
    Ok(pairs)
}

#[test]
fn pairs_are_taken_apart_once(rt: HostRuntime) -> Result<(), Fail> {
    let alloc = rt.alloc();
    let pairs = towers(alloc)?;
    assert!(rt; fails(alloc, &pairs));
    Ok(())
}

fn found(
    alloc: Global,
    pattern: Shape,
    free: &[u64],
    term: Shape,
) -> Result<Option<Subst>, NoMemory> {
    matches(alloc, &made(alloc, pattern)?, free, &made(alloc, term)?)
}

#[test]
fn patterns(rt: HostRuntime) {
    let alloc = rt.alloc();
    let (pattern, term) = (Shape::G(1, 2), Shape::G(7, 2));
    assert!(rt;
        matches!(found(alloc, pattern, &[1], term), Ok(Some(found)) if binds(alloc, &found, 1, Shape::Var(7)))
    );
    assert!(rt; matches!(found(alloc, pattern, &[2], term), Ok(None)));
    assert!(rt; matches!(found(alloc, Shape::G(1, 1), &[1], term), Ok(None)));
}

#[test]
fn renamings(rt: HostRuntime) -> Result<(), Fail> {
    let alloc = rt.alloc();
    let term = Term::var(alloc, 1)?;
    let raised = rename(alloc, &term, 5)?;
    assert!(rt; raised.equals(&Term::var(alloc, 6)?));
    Ok(())
}

/// Extends a solution that binds `?1` to `?7` by a match of `g(?1,?2)`, and gives the size of what `?2` is bound to then, or 0
/// where there is no match.
fn extended(alloc: Global, term: Shape) -> Result<u64, NoMemory> {
    let mut solution = Subst::empty(alloc);
    solution.bind(1, made(alloc, Shape::Var(7))?)?;
    let pattern = made(alloc, Shape::G(1, 2))?;
    let term = made(alloc, term)?;
    let found = extend_match(alloc, &mut solution, &[1, 2], pattern.whole(), term.whole())?;
    if !found {
        return Ok(0);
    }
    Ok(bound_size(&solution, 2))
}

/// The size of what the variable is bound to, and 0 where nothing is.
fn bound_size(solution: &Subst, variable: u64) -> u64 {
    match solution.get(variable) {
        Some(term) => term.size(),
        None => 0,
    }
}

#[test]
fn extensions(rt: HostRuntime) -> Result<(), Fail> {
    let alloc = rt.alloc();
    assert_eq!(&rt; extended(alloc, Shape::G(7, 3))?, 1);
    assert_eq!(&rt; extended(alloc, Shape::G(3, 3))?, 0);
    Ok(())
}

/// So many symbols with one argument, one over the other, over the variable.
fn chain(alloc: Global, height: u32, variable: u64) -> Result<Term, NoMemory> {
    let mut stack = TermStack::empty(alloc);
    stack.push_leaf(TermLeaf::Var(variable))?;
    for _ in 0..height {
        stack.apply(Sym { number: 0 }, 1)?;
    }
    Ok(stack.into_term())
}

/// The sizes of what `?9` and `?2` are bound to, where `?9` is a chain over `?1`, and chains over `?1` and `?2` are equal.
fn unified_chains(alloc: Global, height: u32) -> Result<(u64, u64), NoMemory> {
    let mut pairs = Vec::new(alloc);
    pairs.push((Term::var(alloc, 9)?, chain(alloc, height, 1)?))?;
    pairs.push((chain(alloc, height, 1)?, chain(alloc, height, 2)?))?;
    let order = VarOrder {
        levels: Vec::new(alloc),
    };
    match mgu(alloc, &order, &pairs)? {
        Some(found) => Ok((bound_size(&found, 9), bound_size(&found, 2))),
        None => Ok((0, 0)),
    }
}

/// The size of what `?1` is bound to, where the chain over it becomes a chain that is higher by one.
fn matched_chain(alloc: Global, height: u32) -> Result<u64, NoMemory> {
    let pattern = chain(alloc, height, 1)?;
    let term = chain(alloc, height.saturating_add(1), 7)?;
    match matches(alloc, &pattern, &[1], &term)? {
        Some(found) => Ok(bound_size(&found, 1)),
        None => Ok(0),
    }
}

/// No depth of a term takes stack.
#[test]
fn chains(rt: HostRuntime) -> Result<(), Fail> {
    let alloc = rt.alloc();
    for (height, size) in [(0, 1), (60_000, 60_001)] {
        assert_eq!(&rt; unified_chains(alloc, height)?, (size, 1), "{height}");
        assert_eq!(&rt; matched_chain(alloc, height)?, 2, "{height}");
    }
    Ok(())
}

/// Whether each of so many variables is bound to a symbol over the next one, where pairs say so.
fn follows_all(alloc: Global, count: u64) -> Result<bool, NoMemory> {
    let mut pairs = Vec::new(alloc);
    for n in 0..count {
        pairs.push((Shape::Var(n), Shape::F(n + 1)))?;
    }
    match unifier(alloc, &[], &pairs)? {
        Some(found) => Ok(bound_size(&found, 0) == count.saturating_add(1)),
        None => Ok(false),
    }
}

/// Nor does a chain of bindings.
#[test]
fn bindings_are_followed(rt: HostRuntime) -> Result<(), Fail> {
    assert!(&rt; follows_all(rt.alloc(), 1_000)?);
    Ok(())
}
