//! The tree is faithful to the processes: what its nodes keep, and what that says of the processes' traces.
#![tactic(auto)]

pub mod laws;
