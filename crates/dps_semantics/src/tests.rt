//! Tables of what processes settle to, how they act, and where words end.
use crate::{Config, Label, Runs, act, runs, settle};
use dps_branch::Side;
use dps_process::CommModel::{Classic, Private};
use dps_process::{CommModel, Problem, Process};
use dps_recipes::Frame;
use dps_signature::{Signature, SymKind, is_identifier};
use dps_terms::{NoMemory, PublicName, Sym, Term};
use dps_theory::Theory;
use std::alloc::{AllocError, Global};
use std::test::Fail;

/// The bound variable of the processes.
const X: u64 = 1 << 63;

/// What is told where there is no answer.
const NONE: [usize; 3] = [0, 0, 0];

/// The term of the letter: `a` and `b` are declared names, `x` is the variable, `q` is `q(a)`, which has no value, a digit
/// is a handle, and another letter is a private name. Small letters and capitals say the same.
fn term(alloc: Global, letter: u8) -> Result<Term, NoMemory> {
    match letter.to_ascii_lowercase() {
        b'a' => Term::public(alloc, PublicName::Declared(2)),
        b'b' => Term::public(alloc, PublicName::Declared(3)),
        b'x' => Term::var(alloc, X),
        b'q' => no_message(alloc),
        b'1'..=b'9' => Term::ax(alloc, u32::from(letter - b'0')),
        other => Term::private(alloc, u64::from(other)),
    }
}

/// `q(a)`
fn no_message(alloc: Global) -> Result<Term, NoMemory> {
    let argument = Term::public(alloc, PublicName::Declared(2))?;
    Term::app(alloc, Sym { number: 0 }, vec![in alloc; argument]?)
}

/// The channel of the letter: the public one, or the private one for a capital.
fn channel(letter: u8) -> u32 {
    u32::from(letter.is_ascii_uppercase())
}

/// The output of the letter's term on its channel.
fn output(alloc: Global, letter: u8, then: Process) -> Result<Process, NoMemory> {
    Process::output(alloc, channel(letter), term(alloc, letter)?, then)
}

/// `if x = a then then else other`
fn test(alloc: Global, then: Process, other: Process) -> Result<Process, NoMemory> {
    Process::conditional(alloc, term(alloc, b'x')?, term(alloc, b'a')?, then, other)
}

/// `let x = a in then else other`, or with `q(a)` in the place of `a`
fn bind(alloc: Global, letter: u8, then: Process, other: Process) -> Result<Process, NoMemory> {
    Process::bind(alloc, X, term(alloc, letter)?, then, other)
}

fn popped(stack: &mut Vec<Process>) -> Process {
    stack.pop().unwrap_or(Process::nil())
}

/// What the letter makes of the last processes of the stack, the last one first: `0` is `0`, `|` and `+` stand between two,
/// `?` and `!` are inputs of x on the public and the private channel, `=` is the test whether x is `a`, `:` and `;` bind x
/// to `a` and to `q(a)`, and another letter is an output.
fn made(alloc: Global, stack: &mut Vec<Process>, letter: u8) -> Result<Process, NoMemory> {
    match letter {
        b'0' => Ok(Process::nil()),
        b'|' => Process::parallel(alloc, popped(stack), popped(stack)),
        b'+' => Process::choice(alloc, popped(stack), popped(stack)),
        b'?' => Process::input(alloc, 0, X, popped(stack)),
        b'!' => Process::input(alloc, 1, X, popped(stack)),
        b'=' => test(alloc, popped(stack), popped(stack)),
        b':' => bind(alloc, b'a', popped(stack), popped(stack)),
        b';' => bind(alloc, b'q', popped(stack), popped(stack)),
        _ => output(alloc, letter, popped(stack)),
    }
}

/// The processes that the letters leave on a stack where they stand so many times.
fn processes(alloc: Global, letters: &str, times: u32) -> Result<Vec<Process>, NoMemory> {
    let mut stack = Vec::new(alloc);
    for _ in 0..times {
        for letter in letters.as_bytes() {
            let next = made(alloc, &mut stack, *letter)?;
            stack.push(next)?;
        }
    }
    Ok(stack)
}

/// The processes side by side, in one.
fn beside(alloc: Global, processes: Vec<Process>) -> Result<Process, NoMemory> {
    let mut all = Process::nil();
    for process in processes {
        all = Process::parallel(alloc, all, process)?;
    }
    Ok(all)
}

/// One more name.
fn add(signature: &mut Signature, name: &str, private: bool) {
    if signature.name_count() < 100 && signature.symbol_count() < 100 && is_identifier(name) {
        let _ = signature.add_name(name, private);
    }
}

/// The signature of the destructor `q`, which has no rule, of the channels `c` and, private, `d`, and of `a` and `b`.
fn signature(alloc: Global) -> Signature {
    let mut signature = Signature::new(alloc);
    if signature.name_count() < 100 && signature.symbol_count() < 100 && is_identifier("q") {
        let _ = signature.add_symbol("q", SymKind::Destructor, 1);
    }
    add(&mut signature, "c", false);
    add(&mut signature, "d", true);
    add(&mut signature, "a", false);
    add(&mut signature, "b", false);
    signature
}

/// The problem with the process on its left side.
fn problem(alloc: Global, model: CommModel, left: Process) -> Result<Option<Problem>, NoMemory> {
    let signature = signature(alloc);
    let theory = Theory::without_rules(alloc, &signature)?;
    let _ = theory.rules();
    Ok(Problem::check(signature, theory, model, left, Process::nil()))
}

/// How many configurations there are, and how many parts and messages in all.
fn told(found: Result<Vec<Config>, NoMemory>) -> [usize; 3] {
    let Ok(configs) = found else {
        return NONE;
    };
    let mut parts: usize = 0;
    let mut messages: usize = 0;
    for config in &configs {
        parts = parts.wrapping_add(config.parts.len());
        messages = messages.wrapping_add(config.frame.messages.len());
    }
    [configs.len(), parts, messages]
}

/// What the parts come to by the label.
fn acted(
    alloc: Global,
    problem: &Problem,
    parts: Result<Vec<Process>, NoMemory>,
    label: &Label,
) -> [usize; 3] {
    match parts {
        Ok(parts) => told(act(alloc, problem, &begun(alloc, parts), label)),
        Err(_) => NONE,
    }
}

/// What the parts settle to.
fn settled(alloc: Global, problem: &Problem, parts: Result<Vec<Process>, NoMemory>) -> [usize; 3] {
    match parts {
        Ok(parts) => told(settle(alloc, problem, begun(alloc, parts))),
        Err(_) => NONE,
    }
}

/// The configuration of the parts before anything was put out.
fn begun(alloc: Global, parts: Vec<Process>) -> Config {
    let frame = Frame {
        messages: Vec::new(alloc),
    };
    Config { parts, frame }
}

/// What the processes of the letters come to by the first label of the word, or what they settle to where it is empty.
fn next(alloc: Global, problem: &Problem, letters: &str, times: u32, word: &[Label]) -> [usize; 3] {
    let parts = processes(alloc, letters, times);
    match word.first() {
        Some(label) => acted(alloc, problem, parts, label),
        None => settled(alloc, problem, parts),
    }
}

/// What configurations come to.
fn after(alloc: Global, model: CommModel, letters: &str, times: u32, word: &str) -> [usize; 3] {
    let Ok(word) = labels(alloc, word) else {
        return NONE;
    };
    match problem(alloc, model, Process::nil()) {
        Ok(Some(problem)) => next(alloc, &problem, letters, times, &word),
        _ => NONE,
    }
}

/// The label of the letter where so many messages were put out: `o`, and `O` on the private channel, gets the next one, `w`
/// the last one again, and another letter sends its term.
fn label(alloc: Global, letter: u8, messages: u32) -> Result<Label, NoMemory> {
    match letter {
        b'o' | b'O' => Ok(Label::Out(channel(letter), messages.wrapping_add(1))),
        b'w' => Ok(Label::Out(0, messages)),
        _ => Ok(Label::In(channel(letter), term(alloc, letter)?)),
    }
}

fn labels(alloc: Global, letters: &str) -> Result<Vec<Label>, NoMemory> {
    let mut word = Vec::new(alloc);
    let mut messages: u32 = 0;
    for letter in letters.as_bytes() {
        word.push(label(alloc, *letter, messages)?)?;
        messages = messages.wrapping_add(u32::from(*letter == b'o'));
    }
    Ok(word)
}

/// The ends, or the number of the label at which the runs are stuck.
fn ends(answer: Result<Runs, NoMemory>) -> [usize; 3] {
    match answer {
        Ok(Runs::Ends(configs)) => told(Ok(configs)),
        Ok(Runs::Stuck(number)) => [0, number as usize, 0],
        Err(_) => NONE,
    }
}

/// What is answered of a word of fewer than 100 labels.
fn answered(alloc: Global, problem: &Problem, word: &[Label]) -> [usize; 3] {
    if word.len() >= 100 {
        return NONE;
    }
    ends(runs(alloc, problem, Side::Left, word))
}

fn all_ends(alloc: Global, made: Result<Option<Problem>, NoMemory>, word: &[Label]) -> [usize; 3] {
    match made {
        Ok(Some(problem)) => answered(alloc, &problem, word),
        _ => NONE,
    }
}

/// What is found of the word.
fn found(
    alloc: Global,
    model: CommModel,
    letters: &str,
    times: u32,
    word: &str,
) -> Result<[usize; 3], NoMemory> {
    let word = labels(alloc, word)?;
    let left = beside(alloc, processes(alloc, letters, times)?)?;
    Ok(all_ends(alloc, problem(alloc, model, left), &word))
}

/// The model, processes and how often they stand, a label or none, and how many configurations, parts and messages there
/// are then.
const NEXT: [(CommModel, &str, u32, &str, [usize; 3]); 22] = [
    (Private, "", 1, "", [1, 0, 0]),
    (Private, "0", 3, "", [1, 0, 0]),
    (Private, "0a0b|", 1, "", [1, 2, 0]),
    (Private, "0a0b+", 1, "", [2, 2, 0]),
    (Private, "0a0b+", 3, "", [4, 12, 0]),
    (Private, "0a0a+", 1, "", [1, 1, 0]),
    (Private, "0q", 1, "", [1, 1, 0]),
    (Private, "0A0!", 1, "", [2, 2, 0]),
    (Private, "0A0!", 8, "", [9, 72, 0]),
    (Private, "0Q0!", 1, "", [1, 2, 0]),
    (Private, "0a0?", 1, "", [1, 2, 0]),
    (Classic, "0a0?", 1, "", [2, 2, 0]),
    (Classic, "0a0?", 8, "", [9, 72, 0]),
    (Classic, "0A0!", 8, "", [9, 72, 0]),
    (Private, "00a0b|:", 1, "", [1, 2, 0]),
    (Private, "00a0b|;", 1, "", [1, 0, 0]),
    (Private, "0a0b", 1, "o", [2, 4, 2]),
    (Private, "0a0a", 1, "o", [1, 2, 1]),
    (Private, "0a0b|", 1, "o", [0, 0, 0]),
    (Private, "0q", 1, "o", [0, 0, 0]),
    (Private, "0a?0!", 1, "a", [1, 2, 0]),
    (Private, "0a?0!", 1, "A", [0, 0, 0]),
];

#[test]
fn next_configurations(rt: HostRuntime) -> Result<(), Fail> {
    for (model, letters, times, word, wanted) in &NEXT {
        let found = after(rt.alloc(), *model, letters, *times, word);
        assert_eq!(rt; found, *wanted, "{letters} {times} {word}");
    }
    Ok(())
}

/// The model, processes and how often they stand, a word, and how many configurations, parts and messages there are at its
/// ends, or the number of the label at which the runs are stuck.
const WORDS: [(CommModel, &str, u32, &str, [usize; 3]); 27] = [
    (Private, "", 1, "", [1, 0, 0]),
    (Private, "0a", 1, "o", [1, 0, 1]),
    (Private, "0a", 1, "oo", [0, 2, 0]),
    (Private, "0a", 2, "oow", [0, 3, 0]),
    (Private, "0a", 1, "O", [0, 1, 0]),
    (Private, "0A", 1, "O", [0, 1, 0]),
    (Private, "0q", 1, "o", [0, 1, 0]),
    (Private, "0a0b+", 1, "o", [2, 0, 2]),
    (Private, "0a0a+", 1, "o", [1, 0, 1]),
    (Private, "0x?", 1, "ao", [1, 0, 1]),
    (Private, "0x?", 1, "k", [0, 1, 0]),
    (Private, "0x?", 1, "q", [0, 1, 0]),
    (Private, "0x?", 1, "1", [0, 1, 0]),
    (Private, "0x?0a", 1, "o1o", [1, 0, 2]),
    (Private, "0x?0a", 1, "1", [0, 1, 0]),
    (Private, "0B0a=?", 1, "ao", [1, 0, 1]),
    (Private, "0B0a=?", 1, "bo", [0, 2, 0]),
    (Private, "0B0x:", 1, "o", [1, 0, 1]),
    (Private, "0b0X;", 1, "o", [1, 0, 1]),
    (Private, "0a!0A", 1, "o", [1, 0, 1]),
    (Private, "0a?0b", 1, "o", [1, 1, 1]),
    (Classic, "0a?0b", 1, "o", [2, 1, 2]),
    (Classic, "0a?0b", 1, "oo", [0, 2, 0]),
    (
        Private,
        "0x?x?",
        16,
        "aoaoaoaoaoaoaoaoaoaoaoaoaoaoaoaoaoaoaoaoaoaoaoaoaoaoaoaoaoao",
        [2, 3, 60],
    ),
    (
        Private,
        "0x?x?",
        16,
        "aaaaooooaaaaooooaaaaooooaaaaooooaaaaooooaaaaooooaaaaooooaaao",
        [2, 5, 58],
    ),
    (
        Private,
        "0x?x?",
        16,
        "aaaoaoaaaoaoaaaoaoaaaoaoaaaoaoaaaoaoaaaoaoaaaoaoaaaoaoaaaoao",
        [0, 45, 0],
    ),
    (
        Private,
        "0x?x?",
        16,
        "abooabooaoaoaoaoaoaoaoaoaoaoaoaoaoaoaoaoaoaoaoaoaoaoaoaoaoao",
        [8, 12, 240],
    ),
];

#[test]
fn ends_of_words(rt: HostRuntime) -> Result<(), Fail> {
    for (model, letters, times, word, wanted) in &WORDS {
        let found = found(rt.alloc(), *model, letters, *times, word)?;
        assert_eq!(rt; found, *wanted, "{letters} {times} {word}");
    }
    Ok(())
}
