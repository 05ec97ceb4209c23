//! Files to theories.
ghost use Rattle.std.specs.Prelude.{◌≡◌, IfOk, IfErr};
ghost use Rattle.dps_process.specs.Problem.{IsLawfulTheory};
ghost use Rattle.dps_names.specs.Answers.{IsProgram};
ghost use Rattle.dps_meaning.specs.Meaning.{AreOfText, IsTheoryOf};
ghost use Rattle.dps_meaning.specs.Refusals.{IsChecked, IsTheoryRefusal};

use crate::ElabRefusal;
use crate::cause::{of_names, of_rules};
use dps_names::laws::rules_are_checkable;
use dps_names::{Program, resolve};
use dps_rules::theory_of as theory_of_program;
use dps_signature::Signature;
use dps_syntax::File;
use dps_theory::Theory;
use std::alloc::Global;

/// What a file says, and its theory, which is accepted.
#[derive(Drop)]
pub struct CheckedFile {
    pub program: Program,
    pub theory: Theory,
}

/// What a file says, and its theory. Its sides are not looked at.
///
/// Condition: the file is that of a text of at most 1,048,576 bytes.
///
/// # Errors
///
/// - `Fault`: the first fault of its names; where there is none, that of its rules.
/// - `Memory`: there was no memory.

pub fn check_theory(alloc: Global, file: &File) -> Result<CheckedFile, ElabRefusal>
    requires { AreOfText file.now.declarations.items }
    ensures checked { IfOk result (IsChecked file.now.declarations.items) }
    ensures refused { IfErr result (IsTheoryRefusal file.now.declarations.items) }
{
    match resolve(alloc, file) {
        Ok(program) => check_rules(alloc, file, program),
        Err(refusal) => Err(of_names(refusal)),
    }
}

/// The same of a file that says this program.

fn check_rules(alloc: Global, file: &File, program: Program) -> Result<CheckedFile, ElabRefusal>
    requires read { AreOfText file.now.declarations.items }
    requires named { IsProgram file.now.declarations.items program }
    ensures checked { IfOk result (IsChecked file.now.declarations.items) }
    ensures refused { IfErr result (IsTheoryRefusal file.now.declarations.items) }
{
    rules_are_checkable();
    match theory_of_program(alloc, &program) {
        Ok(theory) => Ok(CheckedFile { program, theory }),
        Err(refusal) => {
            drop(program);
            Err(of_rules(refusal))
        }
    }
}

/// The signature of a file and its theory. Its sides are not looked at.
///
/// Condition: the file is that of a text of at most 1,048,576 bytes.
///
/// # Errors
///
/// - `Fault`: the first fault of its names; where there is none, that of its rules.
/// - `Memory`: there was no memory.

pub fn theory_of(alloc: Global, file: &File) -> Result<(Signature, Theory), ElabRefusal>
    requires { AreOfText file.now.declarations.items }
    ensures theory { IfOk result (λ found. IsTheoryOf file.now.declarations.items found.0 found.1) }
    ensures lawful { IfOk result (λ found. IsLawfulTheory found.0 found.1) }
    ensures refused { IfErr result (IsTheoryRefusal file.now.declarations.items) }
{
    match check_theory(alloc, file) {
        Ok(checked) => Ok(parted(checked)),
        Err(refusal) => Err(refusal),
    }
}

/// The signature and the theory of a checked file.
fn parted(checked: CheckedFile) -> (Signature, Theory)
    ensures signature { result.0 ≡ checked.program.signature }
    ensures theory { result.1 ≡ checked.theory }
{
    let CheckedFile { program, theory } = checked;
    (program.signature, theory)
}
