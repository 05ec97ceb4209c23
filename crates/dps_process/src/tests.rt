//! A table of processes, one on a long path, and a problem.
use crate::{CommModel, Problem, Process};
use dps_signature::{Signature, is_identifier};
use dps_terms::{NoMemory, Subst, Sym, Term};
use dps_theory::Theory;
use std::alloc::Global;
use std::test::Fail;

/// The variable of the table, which a substitution binds.
const X: u64 = 7;

/// `out(0,x); 0`
fn tells(alloc: Global) -> Result<Process, NoMemory> {
    Process::output(alloc, 0, Term::var(alloc, X)?, Process::nil())
}

fn listens(alloc: Global, variable: u64) -> Result<Process, NoMemory> {
    Process::input(alloc, 0, variable, tells(alloc)?)
}

fn tests(alloc: Global) -> Result<Process, NoMemory> {
    let left = Term::var(alloc, X)?;
    let right = Term::private(alloc, 3)?;
    Process::conditional(alloc, left, right, Process::nil(), listens(alloc, X)?)
}

fn binds(alloc: Global, then: Process, other: Process) -> Result<Process, NoMemory> {
    Process::bind(alloc, X, Term::private(alloc, 3)?, then, other)
}

/// A closed term of three nodes in the place of x.
fn replaced(alloc: Global, process: &Process) -> Result<Process, NoMemory> {
    let mut by = Subst::empty(alloc);
    let first = Term::private(alloc, 1)?;
    let second = Term::private(alloc, 2)?;
    let pair = Term::app(alloc, Sym { number: 0 }, vec![in alloc; first, second]?)?;
    by.bind(X, pair)?;
    process.subst(alloc, &by)
}

/// Whether the process was made, is closed or not, and has this size before and after x is replaced.
fn is_like(
    alloc: Global,
    made: Result<Process, NoMemory>,
    closed: bool,
    before: u64,
    after: u64,
) -> bool {
    let Ok(process) = made else {
        return false;
    };
    let Ok(changed) = replaced(alloc, &process) else {
        return false;
    };
    let Ok(copy) = process.copy(alloc) else {
        return false;
    };
    process.closed() == closed
        && process.size() == before
        && copy.equals(&process)
        && changed.size() == after
}

fn pair(alloc: Global, left: Process, right: Process) -> Result<Process, NoMemory> {
    let parallel = Process::parallel(alloc, left, right)?;
    Process::choice(alloc, Process::nil(), parallel)
}

#[test]
fn table(rt: HostRuntime) -> Result<(), Fail> {
    let alloc = rt.alloc();
    assert!(rt; is_like(alloc, Ok(Process::nil()), true, 1, 1));
    assert!(rt; is_like(alloc, tells(alloc), false, 3, 5));
    assert!(rt; is_like(alloc, listens(alloc, X), true, 4, 4));
    assert!(rt; is_like(alloc, listens(alloc, 8), false, 4, 6));
    assert!(rt; is_like(alloc, tests(alloc), false, 8, 10));
    assert!(rt;
        is_like(
            alloc,
            binds(alloc, tells(alloc)?, Process::nil()),
            true,
            6,
            6
        )
    );
    assert!(rt;
        is_like(
            alloc,
            binds(alloc, tells(alloc)?, tells(alloc)?),
            false,
            8,
            10
        )
    );
    assert!(rt;
        is_like(
            alloc,
            pair(alloc, tells(alloc)?, listens(alloc, X)?),
            false,
            10,
            12
        )
    );
    Ok(())
}

/// `height` bindings, one below the other, each of a variable of its own to x.
fn tower(alloc: Global, height: u32) -> Result<Process, NoMemory> {
    let mut process = tells(alloc)?;
    for index in 0..height {
        let term = Term::var(alloc, X)?;
        process = Process::bind(alloc, u64::from(index) + 100, term, process, Process::nil())?;
    }
    Ok(process)
}

/// A path may have 1,000 nodes.
#[test]
fn long_path(rt: HostRuntime) -> Result<(), Fail> {
    let alloc = rt.alloc();
    assert!(rt; is_like(alloc, tower(alloc, 1000), false, 3003, 5005));
    Ok(())
}

/// The problem of `0` and `in(0,x); out(0,x)`, where no name is declared or where one is.
fn against_nil(alloc: Global, signature: Signature) -> Result<Option<Problem>, NoMemory> {
    let theory = Theory::without_rules(alloc, &signature)?;
    let _ = theory.rules();
    let variable = 1 << 63;
    let out = Process::output(alloc, 0, Term::var(alloc, variable)?, Process::nil())?;
    let right = Process::input(alloc, 0, variable, out)?;
    Ok(Problem::check(signature, theory, CommModel::Private, Process::nil(), right))
}

/// Whether the problem was made, in the private model, over one name, which is private.
fn has_private_name(made: Result<Option<Problem>, NoMemory>) -> bool {
    match made {
        Ok(Some(problem)) => {
            problem.model() == CommModel::Private
                && problem.is_private(0)
                && problem.may_meet(0)
                && !problem.may_meet(1)
        }
        _ => false,
    }
}

#[test]
fn a_problem(rt: HostRuntime) -> Result<(), Fail> {
    let alloc = rt.alloc();
    let mut signature = Signature::new(alloc);
    assert!(rt; is_identifier("c"));
    signature.add_name("c", true)?;
    assert!(rt; has_private_name(against_nil(alloc, signature)));
    let made = against_nil(alloc, Signature::new(alloc));
    assert!(rt; !has_private_name(made));
    Ok(())
}
