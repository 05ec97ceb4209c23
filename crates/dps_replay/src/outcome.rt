//! What a trace comes to.
use dps_semantics::Config;
use dps_static::Test;

/// What the labels of a side come to, beside the other side.
#[derive(Drop)]
pub enum Replay {
    /// No run of the side has the labels. This is the number, from 1, of the first that no run passes.
    NoRun { label: u32 },
    /// No end of the other side has a frame like this end's. Each is told apart from it by some of the tests.
    Attack { end: Config, tests: Vec<Test> },
    /// Each end of the side stands first in some pair, and with it an end of the other side whose frame no attacker tells
    /// apart.
    Matched { pairs: Vec<(Config, Config)> },
}
