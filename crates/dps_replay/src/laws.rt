//! What answers decide. Each function does nothing but name a law that its own stands on: its contract is the law.
ghost use Rattle.dps_replay.specs.Laws.{AttacksAreAnswered, MissingRunsAreAnswered};

use dps_process::laws::prefixes_are_traces;

/// An answer is an attack exactly where the labels are one.
pub fn attacks_are_answered()
    ensures { AttacksAreAnswered }
{
    prefixes_are_traces();
}

/// An answer is that there is no run exactly where the side has no trace with the labels.
pub fn missing_runs_are_answered()
    ensures { MissingRunsAreAnswered }
{
    prefixes_are_traces();
}
