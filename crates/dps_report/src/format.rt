//! The formats of reports.

/// The two formats of reports. Format 2 names the model of communication; it is what is printed, and both are read.
#[derive(Clone, Copy, Debug, PartialEq, Eq)]
pub enum Format {
    First,
    Second,
}
