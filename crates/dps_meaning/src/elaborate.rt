//! Files to problems.
ghost use Rattle.std.specs.Prelude.{◌≡◌, IfOk, IfErr};
ghost use Rattle.dps_process.specs.Models.{model_of};
ghost use Rattle.dps_process.specs.Problem.{IsLawful, HasHighBinders};
ghost use Rattle.dps_elab.specs.Meaning.{expanded, sides as written_out};
ghost use Rattle.dps_meaning.specs.Meaning.{AreOfText, IsProblemOf};
ghost use Rattle.dps_meaning.specs.Refusals.{IsChecked, IsProblemRefusal, checked_problem};

use crate::cause::of_sides;
use crate::{CheckedFile, ElabRefusal, check_theory};
use dps_elab::laws::{binders_are_high, sides_are_lawful};
use dps_elab::{Sides, expand};
use dps_names::laws::programs_are_well_formed;
use dps_process::{CommModel, Problem};
use dps_syntax::File;
use std::alloc::Global;

/// The problem that a file means, in this model of communication.
///
/// Condition: the file is that of a text of at most 1,048,576 bytes.
///
/// # Errors
///
/// - `Fault`: the first fault of its names; where there is none, that of its rules; and where there is none either, that
///   of its sides. It does not depend on the model.
/// - `Memory`: there was no memory.

pub fn problem(alloc: Global, file: &File, model: CommModel) -> Result<Problem, ElabRefusal>
    requires { AreOfText file.now.declarations.items }
    ensures means { IfOk result (IsProblemOf file.now.declarations.items) }
    ensures lawful { IfOk result IsLawful }
    ensures binders { IfOk result HasHighBinders }
    ensures model { IfOk result (λ problem. problem.model ≡ model_of model) }
    ensures refused { IfErr result (IsProblemRefusal file.now.declarations.items) }
{
    match check_theory(alloc, file) {
        Ok(checked) => write_out(alloc, file, checked, model),
        Err(refusal) => Err(refusal),
    }
}

/// The same of a file that is checked.

fn write_out(
    alloc: Global,
    file: &File,
    checked: CheckedFile,
    model: CommModel,
) -> Result<Problem, ElabRefusal>
    requires { IsChecked file.now.declarations.items checked }
    ensures means { IfOk result (IsProblemOf file.now.declarations.items) }
    ensures lawful { IfOk result IsLawful }
    ensures binders { IfOk result HasHighBinders }
    ensures model { IfOk result (λ problem. problem.model ≡ model_of model) }
    ensures refused { IfErr result (IsProblemRefusal file.now.declarations.items) }
{
    match expand(alloc, &checked.program) {
        Ok(sides) => {
            programs_are_well_formed();
            sides_are_lawful();
            binders_are_high();
            Ok(problem_of(checked, model, sides))
        }
        Err(refusal) => {
            drop(checked);
            Err(of_sides(refusal))
        }
    }
}

/// The problem of two sides: all else of the file is dropped here, and not on each way out of its caller.
fn problem_of(checked: CheckedFile, model: CommModel, sides: Sides) -> Problem
    requires lawful { IsLawful (checked_problem checked (model_of model) sides.left sides.right) }
    requires binders { HasHighBinders (checked_problem checked (model_of model) sides.left sides.right) }
    ensures { result ≡ checked_problem checked (model_of model) sides.left sides.right }
{
    let CheckedFile { program, theory } = checked;
    let Sides { left, right } = sides;
    Problem::new(program.signature, theory, model, left, right)
}
