//! The outside of the program: files that are read by name, and a sink that its text is written to.
//!
//! Each is a trait whose calls may fail, and a count of its faults says that a failure was real. Files and sinks in
//! memory tell their bytes; those of the system tell nothing. `read_all` and `write_all` work over any of them.
#![tactic(auto)]

mod host;
mod memory;
mod traits;
mod whole;

pub use host::{HostFiles, HostSink};
pub use memory::{MemFiles, MemSink};
pub use traits::{Failed, Files, Sink};
pub use whole::{ReadRefusal, WriteFault, read_all, write_all};

#[cfg(test)]
mod tests;
