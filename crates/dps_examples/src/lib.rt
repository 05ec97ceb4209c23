//! Small processes, and what holds of their steps, their runs and their equivalence. Each answer is proved: the definitions
//! of `dps_process` mean what is said here.
#![tactic(auto)]

pub mod branches;
pub mod models;
pub mod pairs;
pub mod runs;
pub mod sides;
