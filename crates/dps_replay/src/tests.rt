//! A table of small problems and traces.
use crate::{Replay, replay};
use dps_branch::Side;
use dps_branch::Side::{Left, Right};
use dps_process::{CommModel, Label, Problem, Process};
use dps_signature::{Signature, is_identifier};
use dps_terms::{NoMemory, PublicName, Term};
use dps_theory::Theory;
use std::alloc::{AllocError, Global};
use std::test::Fail;

/// What is told where there is no answer.
const NONE: usize = 999;

/// `a` and `b` are declared names, and other letters private ones.
fn term(alloc: Global, letter: u8) -> Result<Term, NoMemory> {
    match letter {
        b'a' => Term::public(alloc, PublicName::Declared(1)),
        b'b' => Term::public(alloc, PublicName::Declared(2)),
        other => Term::private(alloc, u64::from(other)),
    }
}

fn output(alloc: Global, letter: u8, then: Process) -> Result<Process, NoMemory> {
    Process::output(alloc, 0, term(alloc, letter)?, then)
}

fn popped(stack: &mut Vec<Process>) -> Process {
    stack.pop().unwrap_or(Process::nil())
}

/// What the letter makes of the last processes of the stack: `0` is `0`, `+` the choice of the last two, and another letter
/// puts out its term before the last one.
fn made(alloc: Global, stack: &mut Vec<Process>, letter: u8) -> Result<Process, NoMemory> {
    match letter {
        b'0' => Ok(Process::nil()),
        b'+' => Process::choice(alloc, popped(stack), popped(stack)),
        _ => output(alloc, letter, popped(stack)),
    }
}

/// The processes that the letters leave on a stack.
fn processes(alloc: Global, letters: &str) -> Result<Vec<Process>, NoMemory> {
    let mut stack = Vec::new(alloc);
    for letter in letters.as_bytes() {
        let next = made(alloc, &mut stack, *letter)?;
        stack.push(next)?;
    }
    Ok(stack)
}

/// The last process that the letters leave, and `0` where there is no memory.
fn process(alloc: Global, letters: &str) -> Process {
    match processes(alloc, letters) {
        Ok(mut stack) => popped(&mut stack),
        Err(_) => Process::nil(),
    }
}

/// One more public name.
fn add(signature: &mut Signature, name: &str) {
    if signature.name_count() < 100 && signature.symbol_count() < 100 && is_identifier(name) {
        let _ = signature.add_name(name, false);
    }
}

/// The signature of the public names `c`, `a` and `b`.
fn signature(alloc: Global) -> Signature {
    let mut signature = Signature::new(alloc);
    add(&mut signature, "c");
    add(&mut signature, "a");
    add(&mut signature, "b");
    signature
}

/// The problem of the two processes.
fn problem(alloc: Global, left: &str, right: &str) -> Result<Option<Problem>, NoMemory> {
    let signature = signature(alloc);
    let theory = Theory::without_rules(alloc, &signature)?;
    let _ = theory.rules();
    let left = process(alloc, left);
    let right = process(alloc, right);
    Ok(Problem::check(signature, theory, CommModel::Private, left, right))
}

/// The first so many outputs.
fn outputs(alloc: Global, count: u32) -> Result<Vec<Label>, NoMemory> {
    let mut labels = Vec::new(alloc);
    for index in 0..count {
        labels.push(Label::Out(0, index.wrapping_add(1)))?;
    }
    Ok(labels)
}

/// The answer as a number: the label that no run passes, 100 and the tests of an attack, 200 and the pairs of ends.
fn told(answer: Result<Replay, NoMemory>) -> usize {
    match answer {
        Ok(Replay::NoRun { label }) => label as usize,
        Ok(Replay::Attack { tests, .. }) => tests.len().wrapping_add(100),
        Ok(Replay::Matched { pairs }) => pairs.len().wrapping_add(200),
        Err(_) => NONE,
    }
}

/// What is answered to a word of fewer than 100 labels.
fn answered(alloc: Global, problem: &Problem, side: Side, word: &[Label]) -> usize {
    if word.len() >= 100 {
        return NONE;
    }
    told(replay(alloc, problem, side, word))
}

fn answer(
    alloc: Global,
    made: Result<Option<Problem>, NoMemory>,
    side: Side,
    word: &[Label],
) -> usize {
    match made {
        Ok(Some(problem)) => answered(alloc, &problem, side, word),
        _ => NONE,
    }
}

/// What is answered to so many outputs of a side.
fn found(
    alloc: Global,
    left: &str,
    right: &str,
    side: Side,
    count: u32,
) -> Result<usize, NoMemory> {
    let word = outputs(alloc, count)?;
    Ok(answer(alloc, problem(alloc, left, right), side, &word))
}

/// Two processes, a side, how many outputs there are, and the answer.
const TRACES: [(&str, &str, Side, u32, usize); 12] = [
    ("0", "0", Left, 0, 201),
    ("0a", "0b", Left, 1, 101),
    ("0a", "0b", Right, 1, 101),
    ("0a", "0b", Left, 2, 2),
    ("0a", "0", Left, 1, 100),
    ("0a", "0", Right, 1, 1),
    ("0k", "0n", Left, 1, 201),
    ("0a", "0b0a+", Left, 1, 201),
    ("0a", "0b0a+", Right, 1, 101),
    ("0a0b+", "0b0a+", Left, 1, 202),
    ("0kk", "0nk", Left, 2, 101),
    ("0kk", "0nk0aa0bb++", Left, 2, 103),
];

#[test]
fn traces(rt: HostRuntime) -> Result<(), Fail> {
    for (left, right, side, count, wanted) in &TRACES {
        let found = found(rt.alloc(), left, right, *side, *count)?;
        assert_eq!(rt; found, *wanted, "{left} {right} {count}");
    }
    Ok(())
}
