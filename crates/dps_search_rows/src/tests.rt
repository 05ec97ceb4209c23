//! Scenes with one equation.
use dps_know::Know;
use dps_search::{Ask, Mgs, Scene, Steps, Stop, solve};
use dps_terms::{NoMemory, PublicName, Sym, Term};
use std::alloc::{AllocError, Global};

/// A symbol over this variable and a public name.
fn ciphertext(alloc: Global, variable: u64) -> Result<Term, NoMemory> {
    let mut arguments = Vec::with_capacity(alloc, 2)?;
    arguments.push(Term::var(alloc, variable)?)?;
    arguments.push(Term::public(alloc, PublicName::Declared(0))?)?;
    Term::app(alloc, Sym { number: 0 }, arguments)
}

/// What variable 1 is to be: a symbol over variable 100 and a name, the private name 0, or variable 2.
fn wanted(alloc: Global, kind: u32) -> Result<Term, NoMemory> {
    match kind {
        0 => ciphertext(alloc, 100),
        1 => Term::private(alloc, 0),
        _ => Term::var(alloc, 2),
    }
}

/// What is to be found: the symbol over a new variable and the name for variable 1, entry 1 for it, or variable 1 for variable 2.
fn found(alloc: Global, kind: u32) -> Result<(u64, Term), NoMemory> {
    match kind {
        0 => Ok((1, ciphertext(alloc, 101)?)),
        1 => Ok((1, Term::entry(alloc, 1)?)),
        _ => Ok((2, Term::var(alloc, 1)?)),
    }
}

/// So many entries of level 1.
fn known(alloc: Global, entries: u32) -> Result<Know, NoMemory> {
    let mut know = Know::new(alloc);
    for _ in 0..entries {
        let _ = know.add(Term::ax(alloc, 1)?, 1)?;
    }
    Ok(know)
}

/// The private name 0, so many times.
fn values(alloc: Global, entries: u32) -> Result<Vec<Term>, NoMemory> {
    let mut values = Vec::new(alloc);
    for _ in 0..entries {
        values.push(Term::private(alloc, 0)?)?;
    }
    Ok(values)
}

/// Variables 1 and 2 of this level.
fn levels(alloc: Global, level: u32) -> Result<Vec<(u64, u32)>, NoMemory> {
    let mut levels = Vec::new(alloc);
    for variable in 1..3 {
        levels.push((variable, level))?;
    }
    Ok(levels)
}

fn labels(alloc: Global) -> Result<Vec<Term>, NoMemory> {
    let mut labels = Vec::new(alloc);
    for variable in 1..3 {
        labels.push(Term::var(alloc, variable)?)?;
    }
    Ok(labels)
}

/// Variables 1 and 2 of this level, both labels, and so many entries of level 1, whose values are the private name 0.
fn scene(alloc: Global, entries: u32, level: u32) -> Result<Scene, NoMemory> {
    let levels = levels(alloc, level)?;
    let values = values(alloc, entries)?;
    let labels = labels(alloc)?;
    let know = known(alloc, entries)?;
    Ok(Scene {
        m: entries,
        levels,
        values,
        know,
        labels,
        disequations: Vec::new(alloc),
    })
}

fn ask(alloc: Global, kind: u32) -> Result<Ask, NoMemory> {
    let mut equations = Vec::with_capacity(alloc, 1)?;
    let term = wanted(alloc, kind)?;
    equations.push((Term::var(alloc, 1)?, term))?;
    Ok(Ask {
        equations,
        targets: Vec::new(alloc),
    })
}

/// Whether the variable has this tree in the solution.
fn binds(solution: &Mgs, pair: &(u64, Term)) -> bool {
    match solution.bindings.get(pair.0) {
        Some(tree) => tree.equals(&pair.1),
        None => false,
    }
}

/// How many solutions there are, and whether the first one has this.
fn judged(
    answer: Result<Vec<Mgs>, Stop>,
    pair: &(u64, Term),
) -> Result<(usize, bool, bool), NoMemory> {
    match answer {
        Ok(solutions) => match solutions.first() {
            Some(first) => Ok((solutions.len(), binds(first, pair), false)),
            None => Ok((0, false, false)),
        },
        Err(Stop::Spent) => Ok((0, false, true)),
        Err(Stop::Memory) => Err(AllocError),
    }
}

/// How many solutions there are, whether the first one is as wanted, whether the search is spent, and how many moves it took.
fn searched(
    alloc: Global,
    scene: &Scene,
    ask: &Ask,
    pair: &(u64, Term),
    budget: u64,
) -> Result<(usize, bool, bool, u64), NoMemory> {
    let mut steps = Steps { used: 0, budget };
    let answer = solve(alloc, scene, ask, &mut steps);
    let (count, binds, spent) = judged(answer, pair)?;
    Ok((count, binds, spent, steps.used))
}

fn asked(
    alloc: Global,
    scene: &Scene,
    kind: u32,
    budget: u64,
) -> Result<(usize, bool, bool, u64), NoMemory> {
    let pair = found(alloc, kind)?;
    let ask = ask(alloc, kind)?;
    searched(alloc, scene, &ask, &pair, budget)
}

fn row(
    alloc: Global,
    kind: u32,
    entries: u32,
    level: u32,
    budget: u64,
) -> Result<(usize, bool, bool, u64), NoMemory> {
    let scene = scene(alloc, entries, level)?;
    asked(alloc, &scene, kind, budget)
}

#[test]
fn rows(rt: HostRuntime) {
    let alloc = rt.alloc();
    for (kind, entries, level, budget, count, spent, used) in &[
        (0, 0, 0, 9, 1, false, 3),
        (0, 0, 0, 3, 1, false, 3),
        (0, 0, 0, 2, 0, true, 2),
        (1, 1, 0, 9, 0, false, 0),
        (1, 1, 1, 9, 1, false, 1),
        (1, 1, 1, 0, 0, true, 0),
        (1, 2, 1, 9, 2, false, 2),
        (2, 0, 0, 0, 1, false, 0),
    ] {
        let answer = row(alloc, *kind, *entries, *level, *budget);
        assert!(rt;
            answer == Ok((*count, *count > 0, *spent, *used)),
            "{kind} {entries} {level} {budget}"
        );
    }
}
