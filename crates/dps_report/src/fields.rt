//! Lines of reports: a word, and what is said of it.
ghost use Rattle.std.specs.Prelude.{◌≡◌, ◌<◌, ◌^◌, ◌++◌, ◌∷◌, ℕ, List, codes, IfOk, IfSome, IfNone, IsSomeAnd, Some};
ghost use Rattle.std.specs.Fmt.{decimal};
ghost use Rattle.std.specs.Str.{IsUtf8};
ghost use Rattle.dps_trace.specs.Text.{line};
ghost use Rattle.dps_report.specs.Reports.{place_text};
ghost use Rattle.dps_report.specs.Finding.{IsField};

use crate::Text;
use dps_trace::{behind, cut, numeral};
use std::alloc::{AllocError, Global};

/// What is said on the first line behind the word, which ends with a colon and a blank, and what comes behind the line.
#[tactic(auto, using(crate::proofs::FieldsRead::for_read_field))]
pub(crate) fn read_field<'a>(bytes: &'a [u8], word: &[u8]) -> Option<(&'a [u8], &'a [u8])>
    ensures found { IfSome result (λ p. IsField word.now bytes.now p.0.now p.1.now) }
    ensures none { IfNone result ((value rest : List ℕ) → ¬ IsField word.now bytes.now value rest) }
{
    let Some(rest) = behind(bytes, word) else {
        return None;
    };
    match cut(b'\n', rest) {
        Some((value, rest)) => Some((value, rest)),
        None => None,
    }
}

/// The same where a number below 2^64 is said.
#[tactic(auto, using(crate::proofs::FieldsRead::for_read_number))]
pub(crate) fn read_number<'a>(bytes: &'a [u8], word: &[u8]) -> Option<(u64, &'a [u8])>
    ensures { (n : ℕ) (rest : List ℕ) → n < 2 ^ 64 → bytes.now ≡ word.now ++ line (decimal n) rest → IsSomeAnd result (λ p. (p.0 ≡ n) × (p.1.now ≡ rest)) }
{
    let Some((digits, rest)) = read_field(bytes, word) else {
        return None;
    };
    match numeral(digits) {
        Some(number) => Some((number, rest)),
        None => None,
    }
}

/// The same where a number below 2^32 is said.
#[tactic(auto, using(crate::proofs::FieldsRead::for_read_short))]
pub(crate) fn read_short<'a>(bytes: &'a [u8], word: &[u8]) -> Option<(u32, &'a [u8])>
    ensures { (n : ℕ) (rest : List ℕ) → n < 2 ^ 32 → bytes.now ≡ word.now ++ line (decimal n) rest → IsSomeAnd result (λ p. (p.0 ≡ n) × (p.1.now ≡ rest)) }
{
    let Some((number, rest)) = read_number(bytes, word) else {
        return None;
    };
    match short_number(number) {
        Some(number) => Some((number, rest)),
        None => None,
    }
}

/// The number, where it is below 2^32.
fn short_number(number: u64) -> Option<u32>
    ensures { number < 2 ^ 32 → result ≡ Some number }
{
    if number > u64::from(u32::MAX) {
        return None;
    }
    Some(number as u32)
}

/// The number below 2^32 with these digits.
#[tactic(auto, using(crate::proofs::FieldsRead::for_short_numeral))]
fn short_numeral(digits: &[u8]) -> Option<u32>
    ensures { (n : ℕ) → n < 2 ^ 32 → digits.now ≡ decimal n → result ≡ Some n }
{
    match numeral(digits) {
        Some(number) => short_number(number),
        None => None,
    }
}

/// The line and the column that `at: LINE:COLUMN` names, and what comes behind.
#[tactic(auto, using(crate::proofs::FieldsRead::for_read_place))]
pub(crate) fn read_place(bytes: &[u8]) -> Option<(u32, u32, &[u8])>
    ensures { (at column : ℕ) (rest : List ℕ) → at < 2 ^ 32 → column < 2 ^ 32 → bytes.now ≡ codes "at: " ++ line (place_text at column) rest
        → IsSomeAnd result (λ p. (p.0 ≡ at) × (p.1 ≡ column) × (p.2.now ≡ rest)) }
{
    let Some((place, rest)) = read_field(bytes, b"at: ") else {
        return None;
    };
    let Some((line, column)) = cut(b':', place) else {
        return None;
    };
    let Some(line) = short_numeral(line) else {
        return None;
    };
    match short_numeral(column) {
        Some(column) => Some((line, column, rest)),
        None => None,
    }
}

/// The bytes as a text, where they are UTF-8.
pub(crate) fn read_text(alloc: Global, bytes: &[u8]) -> Result<Option<Text>, AllocError>
    ensures found { IfOk result (λ found. IfSome found (λ text. (text ≡ bytes.now) × IsUtf8 bytes.now)) }
    ensures only { IsUtf8 bytes.now → IfOk result (λ found. found ≡ Some bytes.now) }
{
    match str::from_utf8(bytes) {
        Ok(text) => Ok(Some(Text::of(String::from_str(alloc, text)?))),
        Err(_) => Ok(None),
    }
}
