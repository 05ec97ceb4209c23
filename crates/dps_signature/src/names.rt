//! The texts that symbols and names may have.
ghost use Rattle.std.specs.Prelude.{◌≡◌, ◌↔◌, ◌≤◌, ◌<◌, ◌+◌, string_bytes, IfOk, IsTrue};
ghost use Rattle.std.specs.List.{AllPass};
ghost use Rattle.dps_signature.specs.Names.{IsIdentifier, IsWord, IsHandleText, is_letter as letter, is_digit as digit, is_name_byte as name_byte, tuple_name, projection_name};

use dps_terms::NoMemory;
use std::alloc::Global;

/// The most bytes of an identifier.
const LONGEST_NAME: usize = 64;

/// Whether a symbol or a name may have this text: a letter, followed by letters, digits, `_` and `'`, of at most 64
/// bytes, that is not `ax` followed by digits only. (`ax` alone is such a text.)
pub fn is_identifier(text: &str) -> bool
    ensures { IsTrue result ↔ IsIdentifier text.now }
{
    let bytes = text.as_bytes();
    bytes.len() <= LONGEST_NAME && is_word(bytes) && !is_handle_text(bytes)
}

fn is_word(bytes: &[u8]) -> bool
    ensures { IsTrue result ↔ IsWord bytes.now }
{
    match bytes {
        [first, rest @ ..] => is_letter(*first) && rest.iter().all(|b| is_name_byte(*b)),
        [] => false,
    }
}

fn is_handle_text(bytes: &[u8]) -> bool
    ensures { IsTrue result ↔ IsHandleText bytes.now }
{
    match bytes {
        [first, second, digits @ ..] => {
            *first == b'a'
                && *second == b'x'
                && !digits.is_empty()
                && digits.iter().all(|b| is_digit(*b))
        }
        _ => false,
    }
}

fn is_letter(b: u8) -> bool
    ensures { result ≡ letter b }
{
    (b'A' <= b && b <= b'Z') || (b'a' <= b && b <= b'z')
}

fn is_digit(b: u8) -> bool
    ensures { result ≡ digit b }
{
    b'0' <= b && b <= b'9'
}

fn is_name_byte(b: u8) -> bool
    ensures { result ≡ name_byte b }
{
    is_letter(b) || is_digit(b) || b == b'_' || b == b'\''
}

/// `(n)`: the text of the symbol of the tuples of length n.
pub fn tuple_text(length: u32) -> &'static str
    requires some { 2 ≤ length }
    requires few { length ≤ 8 }
    ensures { result.now ≡ tuple_name length }
{
    match length {
        2 => "(2)",
        3 => "(3)",
        4 => "(4)",
        5 => "(5)",
        6 => "(6)",
        7 => "(7)",
        8 => "(8)",
        _ => unreachable!(),
    }
}

/// `proj_i_n`: the text of the i-th projection of the tuples of length n.
pub fn projection_text(alloc: Global, index: u32, length: u32) -> Result<String, NoMemory>
    requires first { index ≤ 8 }
    requires few { length ≤ 8 }
    ensures { IfOk result (λ text. string_bytes text ≡ projection_name index length) }
{
    let mut text = String::from_str(alloc, "proj_")?;
    text.push(digit_of(index))?;
    text.push('_')?;
    text.push(digit_of(length))?;
    Ok(text)
}

/// The digit of a number below 10.
fn digit_of(number: u32) -> char
    requires { number < 10 }
    ensures { result ≡ 48 + number }
{
    char::from(b'0' + number as u8)
}
