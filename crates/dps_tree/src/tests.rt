//! A table of problems, equivalent or with their least attacks.
use crate::{PlainAttack, is_plain, plain_check};
use dps_branch::Side;
use dps_process::{CommModel, Problem, Process};
use dps_signature::{Signature, is_identifier};
use dps_terms::{NoMemory, PublicName, Term};
use dps_theory::Theory;
use std::alloc::{AllocError, Global};
use std::test::Fail;

/// `a` and `b` are declared names, and other letters private ones. Small letters and capitals say the same.
fn message(alloc: Global, letter: u8) -> Result<Term, NoMemory> {
    match letter.to_ascii_lowercase() {
        b'a' => Term::public(alloc, PublicName::Declared(2)),
        b'b' => Term::public(alloc, PublicName::Declared(3)),
        other => Term::private(alloc, u64::from(other)),
    }
}

/// The process that the letters leave on a stack: `.` is `0`, `|` puts the last two side by side, and another letter puts
/// out its message before the last one, on the channel 0, or 1 for a capital.
fn process(alloc: Global, letters: &[u8]) -> Result<Process, NoMemory> {
    let mut last = Process::nil();
    let mut below = Vec::new(alloc);
    for letter in letters {
        match *letter {
            b'.' => {
                below.push(last)?;
                last = Process::nil();
            }
            b'|' => {
                let left = below.pop().unwrap_or(Process::nil());
                last = Process::parallel(alloc, left, last)?;
            }
            other => {
                let channel = u32::from(other.is_ascii_uppercase());
                last = Process::output(alloc, channel, message(alloc, other)?, last)?;
            }
        }
    }
    Ok(last)
}

/// One more public name.
fn add(signature: &mut Signature, name: &str) {
    if signature.name_count() < 100 && signature.symbol_count() < 100 && is_identifier(name) {
        let _ = signature.add_name(name, false);
    }
}

/// The problem of the two processes.
fn problem(
    alloc: Global,
    signature: Signature,
    left: Process,
    right: Process,
) -> Result<Option<Problem>, NoMemory> {
    let theory = Theory::without_rules(alloc, &signature)?;
    let _ = theory.rules();
    Ok(Problem::check(signature, theory, CommModel::Private, left, right))
}

/// The answer as a number: 0 for none, and else the digits of the channels behind 1 for the left side or 2 for the right one.
fn told(answer: Option<PlainAttack>) -> u32 {
    let Some(attack) = answer else {
        return 0;
    };
    let mut number: u32 = match attack.side {
        Side::Left => 1,
        Side::Right => 2,
    };
    for channel in &attack.channels {
        number = number.wrapping_mul(10).wrapping_add(*channel);
    }
    number
}

/// The signature of the public names `c`, `d`, `a` and `b`.
fn names(alloc: Global) -> Result<Signature, NoMemory> {
    let mut signature = Signature::new(alloc);
    add(&mut signature, "c");
    add(&mut signature, "d");
    add(&mut signature, "a");
    add(&mut signature, "b");
    Ok(signature)
}

/// The answer to the problem, and 3 where it is not plain.
fn answer(alloc: Global, problem: Option<Problem>) -> Result<u32, NoMemory> {
    let Some(problem) = problem else {
        return Ok(3);
    };
    if !is_plain(&problem) {
        return Ok(3);
    }
    let found = plain_check(alloc, &problem)?;
    Ok(told(found))
}

/// The answer to the problem of the two texts.
fn answer_to(alloc: Global, left: &str, right: &str) -> Result<u32, NoMemory> {
    let left = process(alloc, left.as_bytes())?;
    let right = process(alloc, right.as_bytes())?;
    let problem = problem(alloc, names(alloc)?, left, right)?;
    answer(alloc, problem)
}

#[test]
fn problems(rt: HostRuntime) -> Result<(), Fail> {
    let alloc = rt.alloc();
    let table = [
        (".", ".", 0),
        (".a", ".a", 0),
        (".k", ".n", 0),
        (".a", ".b", 10),
        (".", ".a", 20),
        (".a", ".a.b|", 20),
        (".kk", ".nk", 100),
        (".A.a|", ".B.b|", 10),
        (".Aa.A|", ".Ba.B|", 101),
        (".a.b|", ".b.a|", 0),
        (".a.b|", ".ba", 10),
        (".A.a|", ".Aa", 11),
        (".a.a|.a|", ".aaa", 0),
        (".a.a|.a|", ".aa", 1000),
        (".a.b|.a|", ".a.a|.b|", 0),
        (".aaaa.aaaa|.aaaa|", ".aaaa.aaaa|.aaaa|", 0),
        (".aaaa.aaaa|.aaaa|", ".aaaaaaaaaaaa", 0),
        (".a.b|k.b.a|k|", ".a.b|k.a.b|k|", 0),
        (".a.b|k.b.a|k|", ".a.a|k.b.b|k|", 1000),
    ];
    for (left, right, wanted) in &table {
        let found = answer_to(alloc, left, right)?;
        assert_eq!(rt; found, *wanted);
    }
    Ok(())
}
