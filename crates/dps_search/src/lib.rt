//! The search for the most general solutions of an ask: the code of what `dps_solver` defines.
//!
//! `solve` gives the list of the search, in its order and with its number of moves, or says that a move more would pass the
//! budget. A branch of the search is a `Branch`, and what is still to be listed stands on an agenda.
#![tactic(auto)]

mod branch;
mod closed;
mod entering;
mod finishing;
mod meeting;
mod numbers;
mod passing;
mod scene;
mod search;
mod step;
mod task;

pub use scene::{Ask, Mgs, Scene, Steps, Stop};
pub use search::solve;
