//! The model under which a trace is looked at again.
ghost use Rattle.std.specs.Prelude.{◌≡◌, IfOk};
ghost use Rattle.dps_process.specs.Models.{model_of};
ghost use Rattle.dps_witness.specs.Models.{in_model, name_of, named, or_private, agreed, run_model};

use dps_branch::Side;
use dps_process::{CommModel, Problem};
use dps_terms::NoMemory;
use dps_trace::ModelName;
use std::alloc::Global;

/// The model's name.
pub(crate) fn name_of(model: CommModel) -> ModelName
    ensures { result ≡ name_of model }
{
    match model {
        CommModel::Private => ModelName::Private,
        CommModel::Classic => ModelName::Classic,
    }
}

/// The model with this name, where it is built.
fn named(name: ModelName) -> Option<CommModel>
    ensures { result ≡ named name }
{
    match name {
        ModelName::Private => Some(CommModel::Private),
        ModelName::Classic => Some(CommModel::Classic),
        ModelName::Eavesdrop => None,
    }
}

fn agreed(model: CommModel, other: Option<CommModel>) -> Option<CommModel>
    ensures { result ≡ agreed model other }
{
    match (model, other) {
        (CommModel::Private, Some(CommModel::Private)) => Some(CommModel::Private),
        (CommModel::Classic, Some(CommModel::Classic)) => Some(CommModel::Classic),
        _ => None,
    }
}

/// The model under which a trace that names this model is looked at.
pub(crate) fn run_model(option: Option<CommModel>, name: Option<ModelName>) -> Option<CommModel>
    ensures { result ≡ run_model option name }
{
    match (option, name) {
        (None, None) => Some(CommModel::Private),
        (Some(model), None) => Some(model),
        (None, Some(name)) => named(name),
        (Some(model), Some(name)) => agreed(model, named(name)),
    }
}

/// The same problem in this model.
pub(crate) fn in_model(
    alloc: Global,
    problem: &Problem,
    model: CommModel,
) -> Result<Problem, NoMemory>
    ensures { IfOk result (λ other. other ≡ in_model problem.now (model_of model)) }
{
    let left = problem.side(Side::Left).copy(alloc)?;
    let right = problem.side(Side::Right).copy(alloc)?;
    let theory = problem.theory().copy(alloc)?;
    let signature = problem.signature().copy()?;
    Ok(Problem::new(signature, theory, model, left, right))
}
