//! What files mean, in plain numbers: how many nodes each side has, and how many rules the theory has, with those of
//! projections, and the file writes; or the place and the text of the first fault.
ghost use Rattle.dps_names.specs.Answers.{IsProgram};
ghost use Rattle.dps_meaning.specs.Meaning.{AreOfText};

use crate::{ElabRefusal, cause_text, check_theory, problem, theory_of};
use dps_branch::Side;
use dps_elab::{Sides, expand};
use dps_names::laws::rules_are_checkable;
use dps_names::{Program, resolve};
use dps_process::CommModel;
use dps_rules::theory_of as theory_of_program;
use dps_syntax::{File, read_file};
use dps_terms::NoMemory;
use std::alloc::{AllocError, Global};
use std::test::Fail;

/// The rules of a file's theory, and those that it writes.
fn rules_of(alloc: Global, file: &File) -> Result<(usize, usize), ElabRefusal>
    requires { AreOfText file.now.declarations.items }
{
    let (_, theory) = theory_of(alloc, file)?;
    let checked = check_theory(alloc, file)?;
    Ok((theory.rules().len(), checked.program.rules.len()))
}

fn refused(alloc: Global, refusal: &ElabRefusal) -> Result<String, NoMemory> {
    match refusal {
        ElabRefusal::Fault {
            line,
            column,
            cause,
        } => {
            let cause = cause_text(alloc, cause)?;
            format!(in alloc; "{line}:{column} {cause}")
        }
        ElabRefusal::Memory => Err(AllocError),
    }
}

fn meaning(alloc: Global, file: &File) -> Result<String, NoMemory>
    requires { AreOfText file.now.declarations.items }
{
    let found = match problem(alloc, file, CommModel::Classic) {
        Ok(found) => found,
        Err(refusal) => return refused(alloc, &refusal),
    };
    let left = found.side(Side::Left).size();
    let right = found.side(Side::Right).size();
    match rules_of(alloc, file) {
        Ok((rules, written)) => format!(in alloc; "{left} {right} {rules} {written}"),
        Err(refusal) => refused(alloc, &refusal),
    }
}

#[tactic(auto, using(crate::proofs::OneMeaning::of_text))]
fn answer_to(alloc: Global, text: &str) -> Result<String, NoMemory> {
    if text.len() > 1000 {
        return String::from_str(alloc, "too long");
    }
    match read_file(alloc, text.as_bytes()) {
        Ok(file) => meaning(alloc, &file),
        Err(_) => String::from_str(alloc, "no file"),
    }
}

/// What the phases of a file come to: how many symbols, names, rules and definitions it has, how many rules its theory has,
/// and how many nodes its sides have, written out.
type Numbers = [u64; 7];

/// What is told where a phase fails.
const NONE: Numbers = [0; 7];

/// How many symbols, names, rules and definitions the program has.
fn counts(program: &Program) -> [u64; 4] {
    let symbols = u64::from(program.signature.symbol_count());
    let names = u64::from(program.signature.name_count());
    [
        symbols,
        names,
        program.rules.len() as u64,
        program.definitions.len() as u64,
    ]
}

/// How many rules its theory has, and 0 where it has none.
fn rule_count(alloc: Global, file: &File, program: &Program) -> u64
    requires read { AreOfText file.now.declarations.items }
    requires named { IsProgram file.now.declarations.items program.now }
{
    rules_are_checkable();
    match theory_of_program(alloc, program) {
        Ok(theory) => theory.rules().len() as u64,
        Err(_) => 0,
    }
}

/// How many nodes its sides have, and 0 where they are none.
fn sizes(alloc: Global, program: &Program) -> [u64; 2] {
    match expand(alloc, program) {
        Ok(Sides { left, right }) => [left.size(), right.size()],
        Err(_) => [0, 0],
    }
}

/// What the program comes to.
fn numbers_of(alloc: Global, file: &File, program: &Program) -> Numbers
    requires read { AreOfText file.now.declarations.items }
    requires named { IsProgram file.now.declarations.items program.now }
{
    let [symbols, names, written, definitions] = counts(program);
    let rules = rule_count(alloc, file, program);
    let [left, right] = sizes(alloc, program);
    [symbols, names, written, definitions, rules, left, right]
}

/// What the file comes to, phase by phase.
fn phases(alloc: Global, file: &File) -> Numbers
    requires { AreOfText file.now.declarations.items }
{
    match resolve(alloc, file) {
        Ok(program) => numbers_of(alloc, file, &program),
        Err(_) => NONE,
    }
}

#[tactic(auto, using(crate::proofs::OneMeaning::of_text))]
fn phases_of(alloc: Global, text: &str) -> Numbers {
    if text.len() > 1000 {
        return NONE;
    }
    match read_file(alloc, text.as_bytes()) {
        Ok(file) => phases(alloc, &file),
        Err(_) => NONE,
    }
}

#[test]
fn each_phase_answers(rt: HostRuntime) -> Result<(), Fail> {
    let text =
        "free c. free k[private]. fun h/1. reduc g(h((x,y))) -> x. let P(x) = out(c,h(x)). query trace_equiv(P(k),0).";
    let found = phases_of(rt.alloc(), text);
    assert_eq!(rt; found, [5, 2, 1, 1, 3, 4, 1]);
    Ok(())
}

#[test]
fn files_have_their_meanings(rt: HostRuntime) -> Result<(), Fail> {
    for (text, wanted) in [
        ("free c. query trace_equiv(out(c,c),0).", "3 1 0 0"),
        (
            "free c. fun h/1. reduc g(h(x)) -> x. query trace_equiv(out(c,(c,c)),0).",
            "5 1 3 1",
        ),
        ("free c, c. query trace_equiv(0,0).", "1:9 name twice"),
        (
            "free c. fun h/1. reduc h(x) -> x. query trace_equiv(0,0).",
            "1:24 rule 1: left root is a constructor",
        ),
        (
            "free k[private]. query trace_equiv(out(k,k),0).",
            "1:42 private channel in a term",
        ),
    ] {
        let found = answer_to(rt.alloc(), text)?;
        assert_eq!(rt; found.as_str(), wanted, "at {text}");
    }
    Ok(())
}
