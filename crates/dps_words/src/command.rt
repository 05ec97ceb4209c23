//! Commands and plans.
use dps_process::CommModel;
use thiserror::Error;

/// What to do.
#[derive(Clone, Copy, Debug, PartialEq, Eq)]
pub enum Command {
    /// `check FILE`: whether the two processes of a file are trace equivalent.
    Check,
    /// `replay FILE TRACE`: whether the other side of a file's problem matches a trace.
    Replay,
    /// `theory FILE`: whether the rules of a file are accepted.
    Theory,
    /// `gen N`: the file that is made from a number.
    Gen,
}

/// A command, the numbers, from 1, of the words behind it that belong to no option, the model that its option names, and the
/// number of `gen`, which is 0 for the other commands.
#[derive(Drop, Debug)]
pub struct Plan {
    pub command: Command,
    pub words: Vec<u32>,
    pub model: Option<CommModel>,
    pub number: u32,
}

/// Why words have no plan.
#[derive(Clone, Copy, Debug, PartialEq, Eq, Error)]
pub enum PlanRefusal {
    /// The first wrong word, by its number from 1. A word that is missing has the number after the last.
    #[error("word {0} is wrong")]
    Wrong(u32),
    /// There was no memory for the plan.
    #[error("out of memory")]
    Memory,
}
