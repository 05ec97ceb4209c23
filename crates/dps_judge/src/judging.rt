//! Texts to verdicts.
ghost use Rattle.std.specs.Prelude.{◌≡◌, ◌<◌, ◌≤◌, ◌^◌, length, IfOk, string_bytes};
ghost use Rattle.dps_lex.specs.Spelling.{fault_words};
ghost use Rattle.dps_process.specs.Models.{model_of};
ghost use Rattle.dps_process.specs.Problem.{IsLawful};
ghost use Rattle.dps_tree.specs.Plain.{IsPlain};
ghost use Rattle.dps_meaning.specs.Causes.{cause_of, cause_text as text_of};
ghost use Rattle.dps_meaning.specs.Meaning.{AreOfText, IsProblemOf};
ghost use Rattle.dps_judge.specs.Judgement.{IsJudged, JudgesFile, Refuses, IsAnswered};

use crate::laws::built_texts_are_plain;
use crate::trace::trace_text;
use crate::{Verdict, first_unbuilt};
use dps_lex::{Fault, Place};
use dps_meaning::laws::read_files_are_declared;
use dps_meaning::{ElabCause, ElabRefusal, cause_text, problem};
use dps_process::laws::traces_have_lawful_labels;
use dps_process::{CommModel, Problem};
use dps_syntax::{File, SyntaxRefusal, read_file};
use dps_terms::NoMemory;
use dps_tree::plain_check;
use std::alloc::{AllocError, Global};

/// What a text comes to in a model of communication: the problem that it means is equivalent; or it has an attack, and
/// the text of the least one is answered; or the text is refused, at the place of the first fault of the first phase that
/// has one, or at the first use of what is not judged yet.
///
/// Condition: the text has at most 1,048,576 bytes. It fails only where it is out of memory.
#[tactic(none)]
pub fn judge(alloc: Global, bytes: &[u8], model: CommModel) -> Result<Verdict, NoMemory>
    requires { length bytes.now ≤ 1048576 }
    ensures { IfOk result (IsJudged (model_of model) bytes.now) }
{
    read_files_are_declared();
    match read_file(alloc, bytes) {
        Ok(file) => judge_file(alloc, &file, model),
        Err(SyntaxRefusal::Fault(fault)) => unread(alloc, &fault),
        Err(SyntaxRefusal::Memory) => Err(AllocError),
    }
}

/// A text that is no file.
fn unread(alloc: Global, fault: &Fault) -> Result<Verdict, NoMemory>
    ensures { IfOk result (Refuses (record { line = fault.now.line; column = fault.now.column }) (fault_words fault.now.kind)) }
{
    let place = Place {
        line: fault.line,
        column: fault.column,
    };
    refused(alloc, place, fault.kind.words())
}

/// A file with this fault.
fn faulty(alloc: Global, line: u32, column: u32, cause: &ElabCause) -> Result<Verdict, NoMemory>
    ensures { IfOk result (Refuses (record { line = line; column = column }) (text_of (cause_of cause.now))) }
{
    Ok(Verdict::Refused {
        place: Place { line, column },
        cause: cause_text(alloc, cause)?,
    })
}

/// A refusal with this text.
fn refused(alloc: Global, place: Place, cause: &str) -> Result<Verdict, NoMemory>
    ensures { IfOk result (Refuses place cause.now) }
{
    Ok(Verdict::Refused {
        place,
        cause: String::from_str(alloc, cause)?,
    })
}

/// What a file comes to.
#[tactic(none)]
fn judge_file(alloc: Global, file: &File, model: CommModel) -> Result<Verdict, NoMemory>
    requires { AreOfText file.now.declarations.items }
    ensures { IfOk result (JudgesFile (model_of model) file.now.declarations.items) }
{
    match problem(alloc, file, model) {
        Ok(found) => judge_problem(alloc, file, found),
        Err(
            ElabRefusal::Fault {
                line,
                column,
                cause,
            },
        ) => faulty(alloc, line, column, &cause),
        Err(ElabRefusal::Memory) => Err(AllocError),
    }
}

/// What a file comes to that means this problem.
#[tactic(none)]
fn judge_problem(alloc: Global, file: &File, problem: Problem) -> Result<Verdict, NoMemory>
    requires read { AreOfText file.now.declarations.items }
    requires means { IsProblemOf file.now.declarations.items problem }
    requires lawful { IsLawful problem }
    ensures { IfOk result (JudgesFile problem.model file.now.declarations.items) }
{
    match first_unbuilt(file) {
        Some(place) => {
            drop(problem);
            refused(alloc, place, "not built")
        }
        None => {
            built_texts_are_plain();
            answer(alloc, &problem)
        }
    }
}

/// What a problem comes to.
#[tactic(auto, using(crate::proofs::Answering::attack_named))]
fn answer(alloc: Global, problem: &Problem) -> Result<Verdict, NoMemory>
    requires { IsPlain problem.now }
    ensures { IfOk result (IsAnswered problem.now) }
{
    traces_have_lawful_labels();
    match plain_check(alloc, problem)? {
        None => Ok(Verdict::Equivalent),
        Some(attack) => Ok(Verdict::NotEquivalent {
            trace: trace_text(alloc, problem.signature(), problem.model(), &attack)?,
        }),
    }
}
