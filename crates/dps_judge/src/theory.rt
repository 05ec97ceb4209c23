//! Texts to theories.
ghost use Rattle.std.specs.Prelude.{◌≡◌, ◌<◌, ◌≤◌, ◌^◌, length, string_bytes, IfOk};
ghost use Rattle.dps_lex.specs.Spelling.{fault_words};
ghost use Rattle.dps_meaning.specs.Causes.{cause_of, cause_text as text_of};
ghost use Rattle.dps_meaning.specs.Meaning.{AreOfText};
ghost use Rattle.dps_judge.specs.Judgement.{IsTheoryJudged, JudgesTheory, RefusesTheory};

use crate::TheoryVerdict;
use dps_lex::{Fault, Place};
use dps_meaning::laws::read_files_are_declared;
use dps_meaning::{ElabCause, ElabRefusal, cause_text, check_theory};
use dps_names::Program;
use dps_syntax::{File, SyntaxRefusal, read_file};
use dps_terms::NoMemory;
use std::alloc::{AllocError, Global};

/// What the rules of a text come to: they are accepted; or the text is refused, at the place of its first fault up to its
/// rules. Its sides are not looked at.
///
/// Condition: the text has at most 1,048,576 bytes. It fails only where it is out of memory.
#[tactic(none)]
pub fn judge_theory(alloc: Global, bytes: &[u8]) -> Result<TheoryVerdict, NoMemory>
    requires { length bytes.now ≤ 1048576 }
    ensures { IfOk result (IsTheoryJudged bytes.now) }
{
    read_files_are_declared();
    match read_file(alloc, bytes) {
        Ok(file) => judge_rules(alloc, &file),
        Err(SyntaxRefusal::Fault(fault)) => unread(alloc, fault),
        Err(SyntaxRefusal::Memory) => Err(AllocError),
    }
}

/// A text that is no file.
fn unread(alloc: Global, fault: Fault) -> Result<TheoryVerdict, NoMemory>
    ensures { IfOk result (RefusesTheory (record { line = fault.line; column = fault.column }) (fault_words fault.kind)) }
{
    Ok(TheoryVerdict::Refused {
        place: Place {
            line: fault.line,
            column: fault.column,
        },
        cause: String::from_str(alloc, fault.kind.words())?,
    })
}

/// What the rules of a file come to.
#[tactic(none)]
fn judge_rules(alloc: Global, file: &File) -> Result<TheoryVerdict, NoMemory>
    requires { AreOfText file.now.declarations.items }
    ensures { IfOk result (JudgesTheory file.now.declarations.items) }
{
    match check_theory(alloc, file) {
        Ok(checked) => {
            let rules = rule_count(&checked.program);
            Ok(TheoryVerdict::Accepted { rules })
        }
        Err(
            ElabRefusal::Fault {
                line,
                column,
                cause,
            },
        ) => faulty(alloc, line, column, &cause),
        Err(ElabRefusal::Memory) => Err(AllocError),
    }
}

/// A file with this fault up to its rules.
fn faulty(
    alloc: Global,
    line: u32,
    column: u32,
    cause: &ElabCause,
) -> Result<TheoryVerdict, NoMemory>
    ensures { IfOk result (RefusesTheory (record { line = line; column = column }) (text_of (cause_of cause.now))) }
{
    Ok(TheoryVerdict::Refused {
        place: Place { line, column },
        cause: cause_text(alloc, cause)?,
    })
}

/// How many rules the file writes.
fn rule_count(program: &Program) -> u32
    requires { length program.now.rules < 2 ^ 24 }
    ensures { result ≡ length program.now.rules }
{
    program.rules.len() as u32
}
