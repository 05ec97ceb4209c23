//! What the result line of a report says.
ghost use Rattle.std.specs.Prelude.{◌≡◌, ◌≤◌, length};
ghost use Rattle.dps_report.specs.Reports.{stop_text, result_text};
ghost use Rattle.dps_report.specs.Named.{result_named, first_named, last_named, stop_named};

use crate::StopName;

/// The name of an outcome, without what is said of it.
#[derive(Clone, Copy, Debug, PartialEq, Eq)]
pub(crate) enum ResultName {
    Equivalent,
    NotEquivalent,
    Spent,
    Refused,
    Stopped(StopName),
    TheoryAccepted,
    Attack,
    Matched,
    NoRun,
    NoMemory,
}

impl ResultName {
    /// The name, as it is written.
    pub(crate) fn text(self) -> &'static str
        ensures text { result.now ≡ result_text self }
        ensures short { length result.now ≤ 15 }
    {
        match self {
            ResultName::Equivalent => "equivalent",
            ResultName::NotEquivalent => "not equivalent",
            ResultName::Spent => "spent",
            ResultName::Refused => "refused",
            ResultName::Stopped(name) => name_of_stop(name),
            ResultName::TheoryAccepted => "theory accepted",
            ResultName::Attack => "attack",
            ResultName::Matched => "matched",
            ResultName::NoRun => "no run",
            ResultName::NoMemory => "no memory",
        }
    }
}

fn name_of_stop(name: StopName) -> &'static str
    ensures text { result.now ≡ stop_text name }
    ensures short { length result.now ≤ 13 }
{
    match name {
        StopName::TooLong => "too long",
        StopName::OpenFault => "open fault",
        StopName::ReadFault => "read fault",
        StopName::WordsRefused => "words refused",
    }
}

/// The result with this name.
pub(crate) fn result_named(text: &[u8]) -> Option<ResultName>
    ensures { result ≡ result_named text.now }
{
    if let Some(name) = first_named(text) {
        return Some(name);
    }
    if let Some(name) = last_named(text) {
        return Some(name);
    }
    match stop_named(text) {
        Some(name) => Some(ResultName::Stopped(name)),
        None => None,
    }
}

fn first_named(text: &[u8]) -> Option<ResultName>
    ensures { result ≡ first_named text.now }
{
    if text == b"equivalent".as_slice() {
        return Some(ResultName::Equivalent);
    }
    if text == b"not equivalent".as_slice() {
        return Some(ResultName::NotEquivalent);
    }
    if text == b"spent".as_slice() {
        return Some(ResultName::Spent);
    }
    if text == b"refused".as_slice() {
        return Some(ResultName::Refused);
    }
    if text == b"theory accepted".as_slice() {
        return Some(ResultName::TheoryAccepted);
    }
    None
}

fn last_named(text: &[u8]) -> Option<ResultName>
    ensures { result ≡ last_named text.now }
{
    if text == b"attack".as_slice() {
        return Some(ResultName::Attack);
    }
    if text == b"matched".as_slice() {
        return Some(ResultName::Matched);
    }
    if text == b"no run".as_slice() {
        return Some(ResultName::NoRun);
    }
    if text == b"no memory".as_slice() {
        return Some(ResultName::NoMemory);
    }
    None
}

fn stop_named(text: &[u8]) -> Option<StopName>
    ensures { result ≡ stop_named text.now }
{
    if text == b"too long".as_slice() {
        return Some(StopName::TooLong);
    }
    if text == b"open fault".as_slice() {
        return Some(StopName::OpenFault);
    }
    if text == b"read fault".as_slice() {
        return Some(StopName::ReadFault);
    }
    if text == b"words refused".as_slice() {
        return Some(StopName::WordsRefused);
    }
    None
}
