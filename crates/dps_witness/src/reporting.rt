//! Files with traces, beside a problem.
ghost use Rattle.std.specs.Prelude.{◌≡◌, ◌⊎◌, ◌≤◌, ◌<◌, ◌^◌, length};
ghost use Rattle.dps_trace.specs.Values.{kind_text};
ghost use Rattle.dps_witness.specs.Reading.{IsAttackReport};
ghost use Rattle.dps_witness.specs.Answers.{IsLooked, IsWitnessOfText, IsWitness};

use crate::answering::{answer, reported};
use crate::model::name_of;
use crate::reading::{Read, trace_of};
use crate::source::{Source, find_text};
use dps_process::{CommModel, Problem};
use dps_report::{Outcome, Text};
use dps_trace::{TraceKind, TraceRefusal};
use std::alloc::Global;

/// How many lines of a report stand before its trace.
const LINES_BEFORE_TRACE: u32 = 3;

/// What is reported of a file that should hold a trace: the answer of its trace beside the problem, or its first wrong line.
/// The file is named by its word's number.
///
/// A trace of format 2 is looked at under the model that it names, where the option names no other. One of format 1 is
/// looked at under the option's model, or under the private one. Want of memory is an outcome too.
///
/// Condition: the file has at most 1,048,576 bytes.
#[tactic(auto, using(crate::proofs::Witnesses::for_witness))]
pub fn witness(
    alloc: Global,
    problem: &Problem,
    option: Option<CommModel>,
    word: u32,
    bytes: &[u8],
) -> Outcome
    requires { length bytes.now ≤ 1048576 }
    ensures { IsWitness problem.now option word bytes.now result }
{
    match find_text(alloc, bytes) {
        Err(_) => Outcome::NoMemory,
        Ok(Source::Alone) => in_text(alloc, problem, option, word, 0, bytes),
        Ok(Source::InReport(text)) => { in_report(alloc, problem, option, word, &text, bytes) }
        Ok(Source::Missing) => refused(alloc, word, 1, TraceKind::NoTrace),
    }
}

/// The same of a report with this text of its trace.
fn in_report(
    alloc: Global,
    problem: &Problem,
    option: Option<CommModel>,
    word: u32,
    text: &Text,
    bytes: &[u8],
) -> Outcome
    requires short { length bytes.now ≤ 1048576 }
    requires report { IsAttackReport bytes.now text.now }
    ensures { IsWitnessOfText problem.now option word text.now 3 result }
{
    let _bytes = bytes;
    in_text(
        alloc,
        problem,
        option,
        word,
        LINES_BEFORE_TRACE,
        text.as_str().as_bytes(),
    )
}

/// What is reported of the text of a trace behind so many lines.
#[tactic(auto, using(crate::proofs::Witnesses::for_in_text))]
fn in_text(
    alloc: Global,
    problem: &Problem,
    option: Option<CommModel>,
    word: u32,
    before: u32,
    text: &[u8],
) -> Outcome
    requires short { length text.now ≤ 1048576 }
    requires few { before ≤ 3 }
    ensures { IsWitnessOfText problem.now option word text.now before result }
{
    match trace_of(alloc, problem.signature(), option, text) {
        Err(TraceRefusal::Fault { line, kind }) => refused(alloc, word, before + line, kind),
        Err(TraceRefusal::Memory) => Outcome::NoMemory,
        Ok(read) => look(alloc, problem, &read),
    }
}

/// What is reported of a trace that was read.
fn look(alloc: Global, problem: &Problem, read: &Read) -> Outcome
    requires { length read.now.trace.labels < 2 ^ 31 }
    ensures { IsLooked problem.now read.now.trace read.now.model result }
{
    let Ok(found) = answer(alloc, problem, read.model, &read.trace) else {
        return Outcome::NoMemory;
    };
    let name = name_of(read.model);
    match reported(alloc, problem.signature(), name, read.trace.side, &found) {
        Ok(outcome) => outcome,
        Err(_) => Outcome::NoMemory,
    }
}

/// The report of a wrong line.
fn refused(alloc: Global, word: u32, line: u32, kind: TraceKind) -> Outcome
    ensures { (result ≡ Outcome.NoMemory) ⊎ (result ≡ Outcome.Refused word line 1 (kind_text kind)) }
{
    match String::from_str(alloc, kind.text()) {
        Ok(cause) => Outcome::Refused {
            file: word,
            line,
            column: 1,
            cause: Text::of(cause),
        },
        Err(_) => Outcome::NoMemory,
    }
}
