//! Texts to files.

ghost use Rattle.std.specs.Prelude.{◌≤◌, ◌≡◌, All, Some, None, length, IfOk, MatchResult};
ghost use Rattle.dps_lex.specs.Reading.{IsReading};
ghost use Rattle.dps_syntax.specs.Depth.{IsFaultAt};
ghost use Rattle.dps_syntax.specs.Files.{AreFirstTokens, IsFileOfTokens, AreRefused, IsFileOfText, IsRefused, IsFirstFault, StandsAt, lexemes_at, words_at};
ghost use Rattle.dps_syntax.specs.Spans.{IsSpan};

use crate::declaration::declarations_of;
use crate::forest::forest_of;
use crate::leaf::words_of;
use crate::recognition::{Stop, marks_of};
use crate::refusal::SyntaxRefusal;
use crate::tree::File;
use dps_lex::{Fault, Place, Token, end_place, spans_are_in_order, tokens_up_to_fault};
use std::alloc::{AllocError, Global};

/// The file with these tokens.
///
/// `Fault` is the first fault: an unexpected token, which is the first one that no file goes on with; an unexpected end,
/// at the end of the text, where a file begins with the tokens but none ends there; or the first token that begins a
/// process, pattern or term of depth 201. `Memory` is want of memory, and says nothing of the tokens.
///
/// Conditions: the text has at most 1,048,576 bytes, and the tokens are its first ones, in order.
#[tactic(auto, using(crate::proofs::Whole::for_parse))]
pub fn parse(alloc: Global, bytes: &[u8], tokens: &[Token]) -> Result<File, SyntaxRefusal>
    requires small { length bytes.now ≤ 1048576 }
    requires first { AreFirstTokens bytes.now tokens.now }
    ensures { MatchResult result (IsFileOfTokens (lexemes_at bytes.now tokens.now)) (AreRefused bytes.now tokens.now) }
{
    spans_are_in_order();
    match file_of(alloc, bytes, tokens) {
        Ok(Ok(file)) => Ok(file),
        Ok(Err(stop)) => Err(SyntaxRefusal::Fault(fault_at(bytes, tokens, stop))),
        Err(_) => Err(SyntaxRefusal::Memory),
    }
}

/// The file that a text is.
///
/// `Fault` is the earlier one of its first lexical fault and its first fault of the syntax. `Memory` is want of memory,
/// and says nothing of the text.
///
/// Condition: the text has at most 1,048,576 bytes.
#[tactic(auto, using(crate::proofs::Whole::for_read_file))]
pub fn read_file(alloc: Global, bytes: &[u8]) -> Result<File, SyntaxRefusal>
    requires { length bytes.now ≤ 1048576 }
    ensures { MatchResult result (IsFileOfText bytes.now) (IsRefused bytes.now) }
{
    spans_are_in_order();
    let Ok((tokens, lexical)) = tokens_up_to_fault(alloc, bytes) else {
        return Err(SyntaxRefusal::Memory);
    };
    match file_of(alloc, bytes, &tokens) {
        Ok(Ok(file)) => match lexical {
            Some(fault) => Err(SyntaxRefusal::Fault(fault)),
            None => Ok(file),
        },
        Ok(Err(stop)) => Err(SyntaxRefusal::Fault(earlier(bytes, &tokens, stop, lexical))),
        Err(_) => Err(SyntaxRefusal::Memory),
    }
}

/// The earlier fault: the one of the syntax, or the lexical fault behind the tokens.
#[tactic(auto, using(crate::proofs::Whole::for_earlier))]
fn earlier(bytes: &[u8], tokens: &[Token], stop: Stop, lexical: Option<Fault>) -> Fault
    requires small { length bytes.now ≤ 1048576 }
    requires reading { IsReading bytes.now tokens.now lexical }
    requires stop { IsFaultAt (words_at bytes.now tokens.now) stop.place stop.kind }
    ensures { IsFirstFault bytes.now result }
{
    if stop.place < tokens.len() {
        return fault_at(bytes, tokens, stop);
    }
    match lexical {
        Some(fault) => fault,
        None => fault_at(bytes, tokens, stop),
    }
}

/// The file with these tokens, or their first fault.
#[tactic(auto, using(crate::proofs::Whole::for_file))]
fn file_of(alloc: Global, bytes: &[u8], tokens: &[Token]) -> Result<Result<File, Stop>, AllocError>
    requires { All (IsSpan bytes.now) tokens.now }
    ensures { IfOk result (λ found. MatchResult found (IsFileOfTokens (lexemes_at bytes.now tokens.now)) (λ stop. IsFaultAt (words_at bytes.now tokens.now) stop.place stop.kind)) }
{
    let words = words_of(alloc, bytes, tokens)?;
    match marks_of(alloc, &words)? {
        Err(stop) => Ok(Err(stop)),
        Ok(marks) => {
            let parts = forest_of(alloc, bytes, tokens, &marks)?;
            let declarations = declarations_of(alloc, parts)?;
            Ok(Ok(File { declarations }))
        }
    }
}

/// The fault with its place in the text.
fn fault_at(bytes: &[u8], tokens: &[Token], stop: Stop) -> Fault
    requires { length bytes.now ≤ 1048576 }
    ensures kind { result.kind ≡ stop.kind }
    ensures stands { StandsAt bytes.now tokens.now stop.place result }
{
    match tokens.get(stop.place) {
        Some(token) => Fault {
            line: token.line,
            column: token.column,
            kind: stop.kind,
        },
        None => {
            let Place { line, column } = end_place(bytes);
            Fault {
                line,
                column,
                kind: stop.kind,
            }
        }
    }
}
