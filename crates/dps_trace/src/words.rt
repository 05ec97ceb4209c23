//! What words of a label mean.
ghost use Rattle.std.specs.Prelude.{◌≡◌, option_map};
ghost use Rattle.dps_trace.specs.Scanning.{numeral, longer, public_named, handle_read, own_read, leaf_read, symbol_read, symbol_if};
ghost use Rattle.dps_signature.specs.Names.{symbol_named};
ghost use Rattle.dps_terms.specs.Leaves.{leaf_seen};

use dps_signature::{Signature, tuple_text};
use dps_terms::{PublicName, Sym, TermLeaf};

/// The number with one more digit, below 2^64.
fn longer(number: u64, digit: u8) -> Option<u64>
    ensures { result ≡ longer number digit }
{
    if digit < b'0' {
        return None;
    }
    if digit > b'9' {
        return None;
    }
    let next = u128::from(number) * 10 + u128::from(digit - b'0');
    if next > u128::from(u64::MAX) {
        return None;
    }
    Some(next as u64)
}

/// The number of these digits, where it is below 2^64. Zeros may lead, and no digits at all are 0.
pub fn numeral(digits: &[u8]) -> Option<u64>
    ensures { result ≡ numeral digits.now }
{
    let mut number: u64 = 0;
    for digit in digits {
        let Some(next) = longer(number, *digit) else {
            return None;
        };
        number = next;
    }
    Some(number)
}

/// The public name with this text. Bytes that are not UTF-8 are no name's.
#[tactic(auto, using(crate::proofs::Spelling::no_public_bytes))]
pub(crate) fn public_named(signature: &Signature, text: &[u8]) -> Option<u32>
    ensures { result ≡ public_named signature.now text.now }
{
    signature.spelled();
    let text = match str::from_utf8(text) {
        Ok(text) => text,
        Err(_) => return None,
    };
    let Some(number) = signature.name(text) else {
        return None;
    };
    if number >= signature.name_count() {
        return None;
    }
    if signature.is_private(number) {
        return None;
    }
    Some(number)
}

/// The number of the handle with this text.
pub(crate) fn handle_read(text: &[u8]) -> Option<u32>
    ensures { result ≡ handle_read text.now }
{
    let [b'a', b'x', digits @ ..] = text else {
        return None;
    };
    let Some(number) = numeral(digits) else {
        return None;
    };
    if number < 1 || number > u64::from(u32::MAX) {
        return None;
    }
    Some(number as u32)
}

/// The number of the attacker's own name with this text.
fn own_read(text: &[u8]) -> Option<u64>
    ensures { result ≡ own_read text.now }
{
    let [b'@', digits @ ..] = text else {
        return None;
    };
    numeral(digits)
}

/// The name or the handle with this text.
pub(crate) fn leaf_read(signature: &Signature, text: &[u8]) -> Option<TermLeaf>
    ensures { option_map leaf_seen result ≡ leaf_read signature.now text.now }
{
    if let Some(number) = public_named(signature, text) {
        return Some(TermLeaf::Public(PublicName::Declared(number)));
    }
    if let Some(number) = own_read(text) {
        return Some(TermLeaf::Public(PublicName::At(number)));
    }
    match handle_read(text) {
        Some(number) => Some(TermLeaf::Ax(number)),
        None => None,
    }
}

/// The symbol of so many arguments that is written so. That of a tuple is not written.
pub(crate) fn symbol_read(signature: &Signature, text: &[u8], arity: u32) -> Option<Sym>
    ensures { option_map (λ s. s.number) result ≡ symbol_read signature.now text.now arity }
{
    if !text.is_empty() {
        return symbol_named(signature, text, arity);
    }
    if arity < 2 || arity > 8 {
        return None;
    }
    symbol_named(signature, tuple_text(arity).as_bytes(), arity)
}

/// The symbol with this text, where it has this arity. Bytes that are not UTF-8 are no symbol's.
#[tactic(auto, using(crate::proofs::Spelling::no_symbol_bytes))]
fn symbol_named(signature: &Signature, text: &[u8], arity: u32) -> Option<Sym>
    ensures { option_map (λ s. s.number) result ≡ symbol_if signature.now arity (symbol_named signature.now text.now) }
{
    signature.spelled();
    let text = match str::from_utf8(text) {
        Ok(text) => text,
        Err(_) => return None,
    };
    let Some(sym) = signature.symbol(text) else {
        return None;
    };
    if sym.number >= signature.symbol_count() {
        return None;
    }
    if signature.arity(sym) != arity {
        return None;
    }
    Some(sym)
}
