//! The scan of a text.

ghost use Rattle.std.specs.Prelude.{◌≡◌, ◌≤◌, ◌<◌, ◌+◌, ◌^◌, None, length, drop, IfOk, MatchBool, MatchResult, All};
ghost use Rattle.dps_lex.specs.CommentText.{opening};
ghost use Rattle.dps_lex.specs.Reading.{BeginsWith, IsReading, IsRefused};
ghost use Rattle.dps_lex.specs.LawsOfReading.{AreInOrder, IsSpelled};
ghost use Rattle.dps_lex.specs.Scanning.{IsPosition, BeginsToken, IsPiece};

use crate::alphabet::blank;
use crate::comment::comment_end;
use crate::lexeme::{Lexeme, first_lexeme};
use crate::position::{Position, START, column, past_byte};
use crate::vocabulary::{Fault, FaultKind, LexRefusal, Token};
use std::alloc::{AllocError, Global};

/// The tokens of a text, in order.
///
/// `Fault` is the first lexical fault, at the first byte of the faulty token. Digits with a leading zero are a
/// `BadNumber`, even where their value is large too. `Memory` is want of memory, and says nothing of the text.
///
/// Condition: the text has at most 1,048,576 bytes.
pub fn tokens(alloc: Global, bytes: &[u8]) -> Result<Vec<Token>, LexRefusal>
    requires { length bytes.now ≤ 1048576 }
    ensures reading { MatchResult result (λ found. IsReading bytes.now found.items None) (IsRefused bytes.now) }
    ensures in_order { IfOk result (λ found. AreInOrder 0 (length bytes.now) found.items) }
    ensures spelled { IfOk result (λ found. All (IsSpelled bytes.now) found.items) }
{
    match tokens_up_to_fault(alloc, bytes) {
        Ok((found, None)) => Ok(found),
        Ok((_, Some(fault))) => Err(LexRefusal::Fault(fault)),
        Err(_) => Err(LexRefusal::Memory),
    }
}

/// The tokens of a text before its first lexical fault, in order, and that fault, if there is one.
///
/// The error is want of memory, and says nothing of the text.
///
/// Condition: the text has at most 1,048,576 bytes.
#[inline(never)]
#[tactic(auto, using(crate::proofs::Scans::for_scan))]
pub fn tokens_up_to_fault(
    alloc: Global,
    bytes: &[u8],
) -> Result<(Vec<Token>, Option<Fault>), AllocError>
    requires { length bytes.now ≤ 1048576 }
    ensures reading { IfOk result (λ found. IsReading bytes.now found.0.items found.1) }
    ensures in_order { IfOk result (λ found. AreInOrder 0 (length bytes.now) found.0.items) }
    ensures spelled { IfOk result (λ found. All (IsSpelled bytes.now) found.0.items) }
{
    let mut tokens = Vec::new(alloc);
    let mut here = START;
    'scan: while here.at < bytes.len() {
        match next_piece(bytes, here) {
            Piece::Gap(behind) => here = behind,
            Piece::Word(lexeme) => {
                tokens.push(token_of(here, lexeme))?;
                here = past_lexeme(bytes, here, lexeme);
            }
            Piece::Stop(kind) => {
                let fault = Fault {
                    line: here.line,
                    column: column(here),
                    kind,
                };
                return Ok((tokens, Some(fault)));
            }
        }
    }
    Ok((tokens, None))
}

/// What stands at a position of a text.
#[derive(Clone, Copy)]
enum Piece {
    /// A blank or a comment, and the position behind it.
    Gap(Position),
    /// A token.
    Word(Lexeme),
    /// A fault.
    Stop(FaultKind),
}

/// What stands here.
#[tactic(auto, using(crate::proofs::Scans::for_next_piece))]
fn next_piece(bytes: &[u8], here: Position) -> Piece
    requires small { length bytes.now ≤ 2 ^ 20 }
    requires inside { here.at < length bytes.now }
    requires here { IsPosition bytes.now here }
    ensures { IsPiece bytes.now here.at result }
{
    if blank(bytes[here.at]) {
        return Piece::Gap(past_byte(bytes, here));
    }
    let rest = from_offset(bytes, here.at);
    if begins_comment(rest) {
        return match comment_end(bytes, here) {
            Some(behind) => Piece::Gap(behind),
            None => Piece::Stop(FaultKind::OpenComment),
        };
    }
    match first_lexeme(rest) {
        Ok(lexeme) => Piece::Word(lexeme),
        Err(kind) => Piece::Stop(kind),
    }
}

/// The token that stands here.
fn token_of(here: Position, lexeme: Lexeme) -> Token
    requires end { here.at + lexeme.len ≤ 2 ^ 20 }
    requires start { here.line_start ≤ here.at }
    ensures kind { result.kind ≡ lexeme.kind }
    ensures start { result.start ≡ here.at }
    ensures end { result.end ≡ here.at + lexeme.len }
    ensures line { result.line ≡ here.line }
    ensures column { here.line_start + result.column ≡ here.at + 1 }
{
    Token {
        kind: lexeme.kind,
        start: here.at as u32,
        end: (here.at + lexeme.len) as u32,
        line: here.line,
        column: column(here),
    }
}

/// The position behind the token that stands here. No token holds a newline.
#[tactic(auto, using(crate::proofs::Scans::past_token))]
fn past_lexeme(bytes: &[u8], here: Position, lexeme: Lexeme) -> Position
    requires here { IsPosition bytes.now here }
    requires token { BeginsToken (drop here.at bytes.now) lexeme.kind lexeme.len }
    ensures position { IsPosition bytes.now result }
    ensures at { result.at ≡ here.at + lexeme.len }
{
    Position {
        at: here.at + lexeme.len,
        line: here.line,
        line_start: here.line_start,
    }
}

/// Whether `(*` is at the front.
fn begins_comment(bytes: &[u8]) -> bool
    ensures { MatchBool result (BeginsWith opening bytes.now) (¬ BeginsWith opening bytes.now) }
{
    matches!(bytes, [b'(', b'*', ..])
}

/// The bytes from an offset on.
fn from_offset(bytes: &[u8], offset: usize) -> &[u8]
    requires { offset ≤ length bytes.now }
    ensures { result.now ≡ drop offset bytes.now }
{
    &bytes[offset..]
}
