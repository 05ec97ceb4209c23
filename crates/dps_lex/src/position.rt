//! Offsets with their line.

ghost use Rattle.std.specs.Prelude.{◌≡◌, ◌+◌, ◌<◌, ◌≤◌, ◌^◌, true, length, slice_index};
ghost use Rattle.dps_lex.specs.Reading.{line_behind, column_behind};
ghost use Rattle.dps_lex.specs.Scanning.{IsPosition, is_plain};

use crate::vocabulary::Place;

/// An offset of a text, its line, and the offset at which that line begins.
#[derive(Clone, Copy)]
pub(crate) struct Position {
    pub(crate) at: usize,
    pub(crate) line: u32,
    pub(crate) line_start: usize,
}

pub(crate) const START: Position = Position {
    at: 0,
    line: 1,
    line_start: 0,
};

/// The place behind the last byte of a text, which is that of its end.
///
/// Condition: the text has at most 1,048,576 bytes.
pub fn end_place(bytes: &[u8]) -> Place
    requires { length bytes.now ≤ 1048576 }
    ensures line { result.line ≡ line_behind bytes.now }
    ensures column { result.column ≡ column_behind bytes.now }
{
    let mut here = START;
    while here.at < bytes.len() {
        here = past_byte(bytes, here);
    }
    Place {
        line: here.line,
        column: column(here),
    }
}

/// The position behind the byte here.
pub(crate) fn past_byte(bytes: &[u8], here: Position) -> Position
    requires small { length bytes.now ≤ 2 ^ 20 }
    requires inside { here.at < length bytes.now }
    requires here { IsPosition bytes.now here }
    ensures position { IsPosition bytes.now result }
    ensures at { result.at ≡ here.at + 1 }
{
    let at = here.at + 1;
    if bytes[here.at] == b'\n' {
        Position {
            at,
            line: here.line + 1,
            line_start: at,
        }
    } else {
        Position {
            at,
            line: here.line,
            line_start: here.line_start,
        }
    }
}

/// The position behind the byte here, which is plain.
pub(crate) fn past_plain(bytes: &[u8], here: Position) -> Position
    requires inside { here.at < length bytes.now }
    requires plain { is_plain (slice_index bytes.now here.at) ≡ true }
    requires here { IsPosition bytes.now here }
    ensures position { IsPosition bytes.now result }
    ensures at { result.at ≡ here.at + 1 }
{
    Position {
        at: here.at + 1,
        line: here.line,
        line_start: here.line_start,
    }
}

/// The column of the position, from 1, in bytes.
pub(crate) fn column(here: Position) -> u32
    requires start { here.line_start ≤ here.at }
    requires small { here.at ≤ 2 ^ 20 }
    ensures { here.line_start + result ≡ here.at + 1 }
{
    (here.at - here.line_start + 1) as u32
}
