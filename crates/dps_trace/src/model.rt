//! The names of models.
ghost use Rattle.std.specs.Prelude.{◌≡◌};
ghost use Rattle.dps_process.specs.Models.{model_of};
ghost use Rattle.dps_trace.specs.Text.{model_text};
ghost use Rattle.dps_trace.specs.Values.{model_named};

use dps_process::CommModel;

/// A model of communication, as texts name it.
#[derive(Clone, Copy, Debug, PartialEq, Eq)]
pub enum ModelName {
    /// Parts communicate unseen on private channels alone.
    Private,
    /// Parts communicate unseen on every channel.
    Classic,
    /// As `Private`, and the attacker overhears what parts communicate on public channels. No trace of it is made yet.
    Eavesdrop,
}

impl ModelName {
    /// The model's name, as it is written.
    pub fn text(self) -> &'static str
        ensures { result.now ≡ model_text self }
    {
        match self {
            ModelName::Private => "private",
            ModelName::Classic => "classic",
            ModelName::Eavesdrop => "eavesdrop",
        }
    }

    /// The name of a model of processes.
    pub fn of(model: CommModel) -> ModelName
        ensures { model_named result ≡ model_of model }
    {
        match model {
            CommModel::Private => ModelName::Private,
            CommModel::Classic => ModelName::Classic,
        }
    }
}
