//! Names, numbers and signs at the front of bytes.

ghost use Rattle.std.specs.Prelude.{◌≡◌, ◌≤◌, ◌<◌, true, false, [], ◌∷◌, Some, length, take, slice_index, MatchBool, MatchOption, MatchResult};
ghost use Rattle.std.specs.List.{prefix_len, AllPass};
ghost use Rattle.std.specs.Str.Parse.{digits_value};
ghost use Rattle.dps_lex.specs.Alphabet.{is_blank, is_letter, is_digit, is_name_byte};
ghost use Rattle.dps_lex.specs.Spelling.{sign};
ghost use Rattle.dps_lex.specs.CommentText.{opening};
ghost use Rattle.dps_lex.specs.LexemeText.{largest_number, leads_with_zero};
ghost use Rattle.dps_lex.specs.Reading.{BeginsWith, BeginsFault};
ghost use Rattle.dps_lex.specs.Scanning.{IsNamed, HasNoSign, starts_arrow, BeginsToken};

use crate::alphabet::{digit, letter, name_byte};
use crate::vocabulary::{FaultKind, TokenKind};

/// The most bytes of an identifier.
const LONGEST_NAME: usize = 64;

/// The largest number of a text.
const LARGEST_NUMBER: u32 = 1_000_000;

/// A token's kind and the number of its bytes.
#[derive(Clone, Copy)]
pub(crate) struct Lexeme {
    pub(crate) kind: TokenKind,
    pub(crate) len: usize,
}

/// The token at the front of bytes that begin with no blank and no comment, or the fault there.
pub(crate) fn first_lexeme(bytes: &[u8]) -> Result<Lexeme, FaultKind>
    requires some { 0 < length bytes.now }
    requires black { is_blank (slice_index bytes.now 0) ≡ false }
    requires no_comment { ¬ BeginsWith opening bytes.now }
    ensures { MatchResult result (λ found. BeginsToken bytes.now found.kind found.len) (λ kind. BeginsFault kind bytes.now) }
{
    let first = bytes[0];
    if letter(first) {
        name(bytes)
    } else if digit(first) {
        number(bytes)
    } else {
        sign(bytes)
    }
}

/// The name at the front of bytes that begin with a letter.
#[tactic(auto, using(crate::proofs::Fronts::for_name))]
fn name(bytes: &[u8]) -> Result<Lexeme, FaultKind>
    requires some { 0 < length bytes.now }
    requires letter { is_letter (slice_index bytes.now 0) ≡ true }
    ensures { MatchResult result (λ found. BeginsToken bytes.now found.kind found.len) (λ kind. BeginsFault kind bytes.now) }
{
    let len = name_len(bytes);
    if len > LONGEST_NAME {
        return Err(FaultKind::LongName);
    }
    let text = front(bytes, len);
    let kind = kind_of_name(text);
    Ok(Lexeme { kind, len })
}

/// The number at the front of bytes that begin with a digit.
#[tactic(auto, using(crate::proofs::Fronts::for_number))]
fn number(bytes: &[u8]) -> Result<Lexeme, FaultKind>
    requires some { 0 < length bytes.now }
    requires digit { is_digit (slice_index bytes.now 0) ≡ true }
    ensures { MatchResult result (λ found. BeginsToken bytes.now found.kind found.len) (λ kind. BeginsFault kind bytes.now) }
{
    let len = digits_len(bytes);
    let text = front(bytes, len);
    if has_leading_zero(text) {
        return Err(FaultKind::BadNumber);
    }
    if is_large(text) {
        return Err(FaultKind::LargeNumber);
    }
    Ok(Lexeme {
        kind: TokenKind::Number,
        len,
    })
}

/// The sign at the front of bytes that begin with no blank, comment, letter or digit.
#[tactic(auto, using(crate::proofs::Fronts::for_sign))]
fn sign(bytes: &[u8]) -> Result<Lexeme, FaultKind>
    requires some { 0 < length bytes.now }
    requires black { is_blank (slice_index bytes.now 0) ≡ false }
    requires no_comment { ¬ BeginsWith opening bytes.now }
    requires no_letter { is_letter (slice_index bytes.now 0) ≡ false }
    requires no_digit { is_digit (slice_index bytes.now 0) ≡ false }
    ensures { MatchResult result (λ found. BeginsToken bytes.now found.kind found.len) (λ kind. BeginsFault kind bytes.now) }
{
    if let Some(kind) = sign_of_byte(bytes[0]) {
        return Ok(Lexeme { kind, len: 1 });
    }
    if begins_arrow(bytes) {
        return Ok(Lexeme {
            kind: TokenKind::Arrow,
            len: 2,
        });
    }
    Err(FaultKind::BadByte)
}

/// The sign that is this one byte.
fn sign_of_byte(byte: u8) -> Option<TokenKind>
    ensures { MatchOption result (HasNoSign (byte ∷ [])) (λ kind. sign kind ≡ Some (byte ∷ [])) }
{
    match byte {
        b'(' => Some(TokenKind::OpenParenthesis),
        b')' => Some(TokenKind::CloseParenthesis),
        b'[' => Some(TokenKind::OpenBracket),
        b']' => Some(TokenKind::CloseBracket),
        b',' => Some(TokenKind::Comma),
        b';' => Some(TokenKind::Semicolon),
        b'.' => Some(TokenKind::Dot),
        b'/' => Some(TokenKind::Slash),
        b'=' => Some(TokenKind::Equals),
        b'|' => Some(TokenKind::Bar),
        b'+' => Some(TokenKind::Plus),
        b'!' => Some(TokenKind::Bang),
        b'^' => Some(TokenKind::Caret),
        _ => None,
    }
}

/// Whether `->` is at the front.
fn begins_arrow(bytes: &[u8]) -> bool
    ensures { result ≡ starts_arrow bytes.now }
{
    matches!(bytes, [b'-', b'>', ..])
}

/// The kind of a name: its keyword's, or an identifier.
fn kind_of_name(name: &[u8]) -> TokenKind
    ensures { IsNamed result name.now }
{
    match name {
        b"free" => TokenKind::Free,
        b"const" => TokenKind::Const,
        b"fun" => TokenKind::Fun,
        b"reduc" => TokenKind::Reduc,
        b"let" => TokenKind::Let,
        b"in" => TokenKind::In,
        b"out" => TokenKind::Out,
        b"if" => TokenKind::If,
        b"then" => TokenKind::Then,
        b"else" => TokenKind::Else,
        b"new" => TokenKind::New,
        b"query" => TokenKind::Query,
        b"trace_equiv" => TokenKind::TraceEquiv,
        b"private" => TokenKind::Private,
        _ => TokenKind::Identifier,
    }
}

/// How many bytes the name at the front has, where a letter is there.
fn name_len(bytes: &[u8]) -> usize
    ensures { result ≡ prefix_len is_name_byte bytes.now }
{
    for (i, byte) in bytes.iter().enumerate() {
        if !name_byte(*byte) {
            return i;
        }
    }
    bytes.len()
}

/// How many digits are at the front.
fn digits_len(bytes: &[u8]) -> usize
    ensures { result ≡ prefix_len is_digit bytes.now }
{
    for (i, byte) in bytes.iter().enumerate() {
        if !digit(*byte) {
            return i;
        }
    }
    bytes.len()
}

/// Whether the digits' value is above the largest number.
#[tactic(auto, using(crate::proofs::Values::for_is_large))]
fn is_large(digits: &[u8]) -> bool
    requires { AllPass is_digit digits.now }
    ensures { MatchBool result (largest_number < digits_value 10 digits.now) (digits_value 10 digits.now ≤ largest_number) }
{
    let mut value: u32 = 0;
    for byte in digits {
        value = value * 10 + u32::from(*byte - b'0');
        if value > LARGEST_NUMBER {
            return true;
        }
    }
    false
}

/// Whether there are two digits or more, of which the first is 0.
fn has_leading_zero(digits: &[u8]) -> bool
    ensures { result ≡ leads_with_zero digits.now }
{
    matches!(digits, [b'0', _, ..])
}

/// The first bytes.
fn front(bytes: &[u8], len: usize) -> &[u8]
    requires { len ≤ length bytes.now }
    ensures { result.now ≡ take len bytes.now }
{
    &bytes[..len]
}
