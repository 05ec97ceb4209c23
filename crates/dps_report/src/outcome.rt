//! What a run of the program comes to.
use crate::{Text, Texts};
use dps_branch::Side;
use dps_path::Path;
use dps_trace::ModelName;

/// What the program answers, apart from a write fault. A report of format 1 has no model and no tests.
#[derive(Drop)]
pub enum Outcome {
    /// The two processes of the file are trace equivalent.
    Equivalent {
        model: Option<ModelName>,
    },
    /// They are not. The trace is the text of a trace of one of them that the other can not match, found at this node.
    NotEquivalent {
        model: Option<ModelName>,
        node: Path,
        trace: Text,
    },
    /// The budget of so many steps does not cover this node.
    Spent {
        model: Option<ModelName>,
        node: Path,
        steps: u64,
    },
    /// A file is refused, at this line and column, each counted from 1, for the cause with this text. The file is named by
    /// its word's number.
    Refused {
        file: u32,
        line: u32,
        column: u32,
        cause: Text,
    },
    /// The words, or the file of this word, stopped the run. Words are numbered from 1.
    Stopped {
        name: StopName,
        word: u32,
    },
    /// The rules of the file are accepted. It writes so many, without those of projections.
    TheoryAccepted {
        rules: u32,
    },
    /// The side shows the trace, and the other side can not match it. Each way in which the other side has the trace's labels
    /// is told apart by one of the tests.
    Attack {
        model: Option<ModelName>,
        side: Side,
        tests: Texts,
    },
    /// The side shows the trace, and the other side matches it.
    Matched {
        model: Option<ModelName>,
        side: Side,
    },
    /// The side does not show the trace: no run passes the label of this number.
    NoRun {
        model: Option<ModelName>,
        label: u32,
    },
    /// There was no memory.
    NoMemory,
}

/// What stopped a run before its file was judged.
#[derive(Clone, Copy, Debug, PartialEq, Eq)]
pub enum StopName {
    /// The file has more than 1,048,576 bytes.
    TooLong,
    /// The file could not be opened.
    OpenFault,
    /// The file was opened, and a read of it failed.
    ReadFault,
    /// The words ask for nothing; the one that is named is the first wrong one.
    WordsRefused,
}
