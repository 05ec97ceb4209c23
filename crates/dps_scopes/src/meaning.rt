//! What an identifier means where it stands.
ghost use Rattle.std.specs.Prelude.{◌≡◌, IfOk, IfSome};
ghost use Rattle.dps_scopes.specs.Scopes.{is_projection_word, are_projection_digits, begins_as_projection, projection_of, is_reserved, IsProjection, IsMeaningOver, declared_meaning, meaning};
ghost use Rattle.dps_scopes.specs.Blocks.{blocks};

use crate::definitions::Definitions;
use crate::scope::Scope;
use crate::signature::SignatureBuilder;
use dps_signature::is_identifier;
use dps_terms::{NoMemory, Sym};

/// `proj_i_n`: the i-th member of a tuple of length n.
#[derive(Clone, Copy, Debug, PartialEq, Eq)]
pub struct Projection {
    pub index: u32,
    pub length: u32,
}

/// What an identifier means.
#[derive(Clone, Copy, Debug, PartialEq, Eq)]
pub enum Meaning {
    /// A local, by its number.
    Local(usize),
    /// A declared name, by its number, and whether it is private.
    Name(u32, bool),
    /// A declared function, with its arity.
    Function(Sym, u32),
    /// A defined process, by its number, with the number of its parameters.
    Process(usize, usize),
    Projection(Projection),
    Unknown,
}

/// Whether the text begins with `proj_`.
pub fn begins_as_projection(text: &str) -> bool
    ensures { result ≡ begins_as_projection text.now }
{
    match text.as_bytes() {
        [p, r, o, j, u, ..] => is_projection_word(*p, *r, *o, *j, *u),
        _ => false,
    }
}

fn is_projection_word(p: u8, r: u8, o: u8, j: u8, u: u8) -> bool
    ensures { result ≡ is_projection_word p r o j u }
{
    p == b'p' && r == b'r' && o == b'o' && j == b'j' && u == b'_'
}

/// Whether no declaration may name this text: it begins with `proj_`, is `ax` followed by digits, or is no identifier.
#[tactic(auto, using(crate::proofs::Identifiers::for_identifiers))]
pub fn is_reserved(text: &str) -> bool
    ensures { result ≡ is_reserved text.now }
{
    if begins_as_projection(text) {
        return true;
    }
    !is_identifier(text)
}

/// The projection that this text names.
fn projection_of(text: &[u8]) -> Option<Projection>
    ensures length { IfSome result IsProjection }
    ensures found { result ≡ projection_of text.now }
{
    match text {
        [p, r, o, j, u, index, v, length] => {
            if is_projection_word(*p, *r, *o, *j, *u)
                && *v == b'_'
                && are_projection_digits(*index, *length)
            {
                Some(Projection {
                    index: u32::from(*index - b'0'),
                    length: u32::from(*length - b'0'),
                })
            } else {
                None
            }
        }
        _ => None,
    }
}

fn are_projection_digits(index: u8, length: u8) -> bool
    ensures { result ≡ are_projection_digits index length }
{
    b'1' <= index && index <= length && b'2' <= length && length <= b'8'
}

/// What the declarations so far say of a text, which is no local and no projection there. Names, functions and processes
/// share one table.
pub fn declared_meaning(
    definitions: &Definitions,
    signature: &SignatureBuilder,
    text: &str,
) -> Meaning
    ensures over { IsMeaningOver signature.now result }
    ensures found { result ≡ declared_meaning signature.now definitions.now text.now }
{
    if begins_as_projection(text) {
        return Meaning::Unknown;
    }
    let declared = signature.signature();
    if let Some(sym) = declared.symbol(text) {
        return Meaning::Function(sym, declared.arity(sym));
    }
    if let Some(number) = declared.name(text) {
        return Meaning::Name(number, declared.is_private(number));
    }
    match definitions.find(text) {
        Some(number) => Meaning::Process(number, definitions.parameters(number)),
        None => Meaning::Unknown,
    }
}

/// What a text means in a process. Locals hide what is declared, and projections may be written. It fails only where no
/// `usize` holds the number of locals, for which there is no memory.
pub fn meaning_of(
    definitions: &Definitions,
    scope: &Scope<'_>,
    signature: &SignatureBuilder,
    text: &str,
) -> Result<Meaning, NoMemory>
    ensures over { IfOk result (IsMeaningOver signature.now) }
    ensures found { IfOk result (λ found. found ≡ meaning signature.now definitions.now (blocks scope.now) text.now) }
{
    if let Some(number) = scope.find(text)? {
        return Ok(Meaning::Local(number));
    }
    match projection_of(text.as_bytes()) {
        Some(projection) => Ok(Meaning::Projection(projection)),
        None => Ok(declared_meaning(definitions, signature, text)),
    }
}
