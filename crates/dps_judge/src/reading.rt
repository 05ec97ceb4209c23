//! Texts to problems.
ghost use Rattle.std.specs.Prelude.{◌≡◌, ◌≤◌, length, string_bytes, IfOk};
ghost use Rattle.dps_lex.specs.Spelling.{fault_words};
ghost use Rattle.dps_process.specs.Models.{model_of};
ghost use Rattle.dps_meaning.specs.Causes.{cause_of, cause_text as text_of};
ghost use Rattle.dps_meaning.specs.Meaning.{AreOfText};
ghost use Rattle.dps_judge.specs.Reading.{IsMeaning, IsMeaningOf, RefusesMeaning};

use dps_lex::{Fault, Place};
use dps_meaning::laws::read_files_are_declared;
use dps_meaning::{ElabCause, ElabRefusal, cause_text, problem};
use dps_process::{CommModel, Problem};
use dps_syntax::{File, SyntaxRefusal, read_file};
use dps_terms::NoMemory;
use std::alloc::{AllocError, Global};

/// What a text means.
#[derive(Drop)]
pub enum Meaning {
    /// This problem.
    Found { problem: Problem },
    /// None: where its first fault stands, and what is printed as the cause.
    Refused { place: Place, cause: String },
}

/// The problem that a text means, in a model of communication; or the place and the cause of the first fault of the first
/// phase that has one. The fault does not depend on the model.
///
/// Condition: the text has at most 1,048,576 bytes. It fails only where it is out of memory.
#[tactic(none)]
pub fn read_problem(alloc: Global, bytes: &[u8], model: CommModel) -> Result<Meaning, NoMemory>
    requires { length bytes.now ≤ 1048576 }
    ensures { IfOk result (IsMeaning (model_of model) bytes.now) }
{
    read_files_are_declared();
    match read_file(alloc, bytes) {
        Ok(file) => file_problem(alloc, &file, model),
        Err(SyntaxRefusal::Fault(fault)) => unread(alloc, fault),
        Err(SyntaxRefusal::Memory) => Err(AllocError),
    }
}

/// A text that is no file.
fn unread(alloc: Global, fault: Fault) -> Result<Meaning, NoMemory>
    ensures { IfOk result (RefusesMeaning (record { line = fault.line; column = fault.column }) (fault_words fault.kind)) }
{
    Ok(Meaning::Refused {
        place: Place {
            line: fault.line,
            column: fault.column,
        },
        cause: String::from_str(alloc, fault.kind.words())?,
    })
}

/// The problem that a file means.
#[tactic(none)]
fn file_problem(alloc: Global, file: &File, model: CommModel) -> Result<Meaning, NoMemory>
    requires { AreOfText file.now.declarations.items }
    ensures { IfOk result (IsMeaningOf (model_of model) file.now.declarations.items) }
{
    match problem(alloc, file, model) {
        Ok(problem) => Ok(Meaning::Found { problem }),
        Err(
            ElabRefusal::Fault {
                line,
                column,
                cause,
            },
        ) => faulty(alloc, line, column, &cause),
        Err(ElabRefusal::Memory) => Err(AllocError),
    }
}

/// A file with this fault.
fn faulty(alloc: Global, line: u32, column: u32, cause: &ElabCause) -> Result<Meaning, NoMemory>
    ensures { IfOk result (RefusesMeaning (record { line = line; column = column }) (text_of (cause_of cause.now))) }
{
    Ok(Meaning::Refused {
        place: Place { line, column },
        cause: cause_text(alloc, cause)?,
    })
}
