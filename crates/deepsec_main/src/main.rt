//! `deepsec`: checks whether the two processes of a file are trace equivalent, and whether its rules are accepted.
#![tactic(auto)]

mod answer;
mod report;
mod run;
#[cfg(test)]
mod tests;

use dps_io::{HostFiles, HostSink};
use std::env;
use std::process::ExitCode;

fn main(rt: HostRuntime) -> ExitCode {
    let alloc = rt.alloc();
    // Words that are no text are refused as no words are.
    let words = match env::args(&rt) {
        Ok(words) => words.skip(1).collect(alloc),
        Err(_) => Ok(Vec::new(alloc)),
    };
    let mut files = HostFiles::new(&rt);
    let mut sink = HostSink::new(&rt);
    let status = match words {
        Ok(words) => run::run_one(alloc, &words, &mut files, &mut sink),
        Err(_) => run::without_memory(&mut sink),
    };
    ExitCode::from(status.code)
}
