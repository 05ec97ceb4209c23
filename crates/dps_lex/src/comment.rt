//! Comments.

ghost use Rattle.std.specs.Prelude.{◌≤◌, ◌^◌, length, drop, MatchOption};
ghost use Rattle.dps_lex.specs.CommentText.{opening};
ghost use Rattle.dps_lex.specs.Reading.{BeginsWith};
ghost use Rattle.dps_lex.specs.Scanning.{IsPosition, HasNoComment, IsCommentTo};

use crate::alphabet::plain;
use crate::position::{Position, past_byte, past_plain};

/// The position behind the comment that begins here, if it ends. `depth` counts the open comments in it.
#[tactic(auto, using(crate::proofs::Comments::for_comment_end))]
pub(crate) fn comment_end(bytes: &[u8], from: Position) -> Option<Position>
    requires small { length bytes.now ≤ 2 ^ 20 }
    requires here { IsPosition bytes.now from }
    requires opens { BeginsWith opening (drop from.at bytes.now) }
    ensures { MatchOption result (HasNoComment (drop from.at bytes.now)) (IsCommentTo bytes.now from.at) }
{
    let first = past_byte(bytes, from);
    let mut position = past_byte(bytes, first);
    let mut depth: usize = 0;
    while position.at + 1 < bytes.len() {
        let byte = bytes[position.at];
        if plain(byte) {
            position = past_plain(bytes, position);
            continue;
        }
        let next = bytes[position.at + 1];
        if byte == b'*' && next == b')' {
            let second = past_byte(bytes, position);
            position = past_byte(bytes, second);
            if depth == 0 {
                return Some(position);
            }
            depth -= 1;
        } else if byte == b'(' && next == b'*' {
            let second = past_byte(bytes, position);
            position = past_byte(bytes, second);
            depth += 1;
        } else {
            position = past_byte(bytes, position);
        }
    }
    None
}
