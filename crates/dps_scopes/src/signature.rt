//! The signature that grows, and what is added to it.
ghost use Rattle.std.specs.Prelude.{◌≡◌, ◌≤◌, ◌<◌, ◌^◌, ◌+◌, ◌++◌, [], ℕ, false, length, None, IsTrue, IfOk, IfErr, OnOk, OnErr};
ghost use Rattle.dps_signature.specs.Names.{IsDeclaredText, IsSymbolText, with_symbol, with_name, tuple_name, projection_name, symbol_named};
ghost use Rattle.dps_signature.specs.Signature.{Signature as SignatureValue};
ghost use Rattle.dps_scopes.specs.Scopes.{is_reserved, projections_from, tuple_at, with_tuple};
ghost use Rattle.dps_scopes.specs.Tuples.{KeepsTuples, AreUndeclared, HasSymbolsOf};

use crate::NameRefusal;
use dps_signature::{AddRefusal, Signature, SymKind, projection_text, tuple_text};
use dps_terms::{NoMemory, Sym};
use std::alloc::{AllocError, Global};
use std::marker::Model;

/// A signature has fewer symbols and names than 2^24, each. (A file has at most 2^20 tokens, so it declares fewer.)
const MOST: u32 = 1 << 24;

/// A signature to which the declarations of a file are added, one by one.
///
/// The projections of tuples come with the tuples' symbol, and with nothing else. After a refusal of what adds to it, it
/// is as it was.
#[derive(Drop)]
pub struct SignatureBuilder {
    signature: Signature,
}

impl Model for SignatureBuilder {
    ghost use Rattle.dps_signature.specs.Signature.{Signature};
    ghost use Rattle.dps_signature.specs.StoredSignature.{signature_code};
    ghost use Rattle.dps_scopes.specs.Tuples.{KeepsTuples};

    ghost Value = { Signature };

    ghost coded = { signature_code };

    ghost view = { λ a. a.signature };

    ghost invariant = { λ a. KeepsTuples a.signature };
}

impl SignatureBuilder {
    /// Nothing is declared. It takes no memory.
    #[tactic(auto, using(crate::proofs::Undeclared::nothing_declared))]
    pub fn new(alloc: Global) -> SignatureBuilder
        ensures { result ≡ record { symbols = []; names = [] } }
    {
        SignatureBuilder {
            signature: Signature::new(alloc),
        }
    }

    /// The signature.
    pub fn signature(&self) -> &Signature
        ensures { result.now ≡ self.now }
    {
        &self.signature
    }

    /// The signature alone.
    pub fn into_signature(self) -> Signature
        ensures { result ≡ self }
    {
        self.signature
    }
}

/// Whether so many more symbols, and one more name, may be added.
fn has_room(signature: &Signature, more: u32) -> bool
    requires { more ≤ 9 }
    ensures symbols { IsTrue result → length signature.now.symbols + more ≤ 2 ^ 24 }
    ensures names { IsTrue result → length signature.now.names < 2 ^ 24 }
{
    signature.symbol_count() <= MOST - more && signature.name_count() < MOST
}

/// One more symbol, with a text that a declaration may have and nothing has, and its number.
///
/// The error is `Memory`: out of memory, or the signature is full.
pub fn add_symbol(
    signature: &mut SignatureBuilder,
    text: &str,
    kind: SymKind,
    arity: u32,
) -> Result<Sym, NameRefusal>
    requires free { is_reserved text.now ≡ false }
    requires fresh { ¬ IsDeclaredText signature.old text.now }
    ensures number { IfOk result (λ s. s.number ≡ length signature.old.symbols) }
    ensures ok { OnOk result (signature.new ≡ with_symbol signature.old (record { name = text.now; kind = kind; arity = arity })) }
    ensures unchanged { OnErr result (signature.new ≡ signature.old) }
    ensures memory { IfErr result (λ refusal. refusal ≡ NameRefusal.Memory) }
{
    if !has_room(&signature.signature, 1) {
        return Err(NameRefusal::Memory);
    }
    match push_symbol(&mut signature.signature, text, kind, arity) {
        Ok(sym) => Ok(sym),
        Err(_) => Err(NameRefusal::Memory),
    }
}

/// One more name, with a text that a declaration may have and nothing has.
///
/// The error is `Memory`: out of memory, or the signature is full.
pub fn add_name(
    signature: &mut SignatureBuilder,
    text: &str,
    private: bool,
) -> Result<(), NameRefusal>
    requires free { is_reserved text.now ≡ false }
    requires fresh { ¬ IsDeclaredText signature.old text.now }
    ensures ok { OnOk result (signature.new ≡ with_name signature.old (record { name = text.now; is_private = private })) }
    ensures unchanged { OnErr result (signature.new ≡ signature.old) }
    ensures memory { IfErr result (λ refusal. refusal ≡ NameRefusal.Memory) }
{
    if !has_room(&signature.signature, 1) {
        return Err(NameRefusal::Memory);
    }
    match signature.signature.add_name(text, private) {
        Ok(_) => Ok(()),
        Err(AddRefusal::Twice) => unreachable!(),
        Err(AddRefusal::Memory) => Err(NameRefusal::Memory),
    }
}

/// The symbol of the tuples of this length, which is 2 to 8. Where it isn't there yet, it is added with its projections.
///
/// The error is `Memory`: out of memory, or the signature is full.
pub fn tuple_symbol(
    alloc: Global,
    signature: &mut SignatureBuilder,
    length: u32,
) -> Result<Sym, NameRefusal>
    requires some { 2 ≤ length }
    requires few { length ≤ 8 }
    ensures number { IfOk result (λ s. s.number ≡ (with_tuple signature.old length).symbol) }
    ensures ok { OnOk result (signature.new ≡ (with_tuple signature.old length).signature) }
    ensures unchanged { OnErr result (signature.new ≡ signature.old) }
    ensures memory { IfErr result (λ refusal. refusal ≡ NameRefusal.Memory) }
{
    match signature.signature.symbol(tuple_text(length)) {
        Some(sym) => Ok(sym),
        None => match add_tuple(alloc, &mut signature.signature, length) {
            Ok(sym) => Ok(sym),
            Err(_) => Err(NameRefusal::Memory),
        },
    }
}

/// Adds the symbol of the tuples of so many members and their projections, all of them or none.
fn add_tuple(alloc: Global, signature: &mut Signature, members: u32) -> Result<Sym, NoMemory>
    requires some { 2 ≤ members }
    requires few { members ≤ 8 }
    requires fresh { AreUndeclared signature.old members }
    ensures number { IfOk result (λ s. s.number ≡ length signature.old.symbols) }
    ensures ok { OnOk result (signature.new ≡ (tuple_at signature.old members None).signature) }
    ensures unchanged { OnErr result (signature.new ≡ signature.old) }
{
    if !has_room(signature, members + 1) {
        return Err(AllocError);
    }
    let count = signature.symbol_count();
    match push_tuple(alloc, signature, members) {
        Ok(sym) => Ok(sym),
        Err(error) => {
            signature.truncate_symbols(count);
            Err(error)
        }
    }
}

/// Adds them. Where memory runs out, it leaves those that it added.
fn push_tuple(alloc: Global, signature: &mut Signature, members: u32) -> Result<Sym, NoMemory>
    requires some { 2 ≤ members }
    requires few { members ≤ 8 }
    requires room { length signature.old.symbols + members + 1 ≤ 2 ^ 24 }
    requires few_names { length signature.old.names < 2 ^ 24 }
    requires fresh { AreUndeclared signature.old members }
    ensures number { IfOk result (λ s. s.number ≡ length signature.old.symbols) }
    ensures ok { OnOk result (signature.new ≡ (tuple_at signature.old members None).signature) }
    ensures grown { OnErr result (HasSymbolsOf signature.old signature.new) }
{
    let text = tuple_text(members);
    let sym = push_symbol(signature, text, SymKind::Constructor, members)?;
    push_projections(alloc, signature, members)?;
    Ok(sym)
}

/// Adds the projections of the tuples of so many members. Where memory runs out, it leaves those that it added.
#[tactic(auto, using(crate::proofs::Signatures::for_projections))]
fn push_projections(alloc: Global, signature: &mut Signature, members: u32) -> Result<(), NoMemory>
    requires some { 2 ≤ members }
    requires few { members ≤ 8 }
    requires room { length signature.old.symbols + members ≤ 2 ^ 24 }
    requires few_names { length signature.old.names < 2 ^ 24 }
    requires fresh { (i : ℕ) → ¬ IsDeclaredText signature.old (projection_name i members) }
    ensures ok { OnOk result (signature.new ≡ record { symbols = signature.old.symbols ++ projections_from members 1 members; names = signature.old.names }) }
    ensures grown { OnErr result (HasSymbolsOf signature.old signature.new) }
{
    for index in 1..members + 1 {
        let text = projection_text(alloc, index, members)?;
        push_symbol(signature, text.as_str(), SymKind::Destructor, 1)?;
    }
    Ok(())
}

/// One more symbol, with a text that nothing has.
fn push_symbol(
    signature: &mut Signature,
    text: &str,
    kind: SymKind,
    arity: u32,
) -> Result<Sym, NoMemory>
    requires few_symbols { length signature.old.symbols < 2 ^ 24 }
    requires few_names { length signature.old.names < 2 ^ 24 }
    requires spelled { IsSymbolText text.now kind arity }
    requires fresh { ¬ IsDeclaredText signature.old text.now }
    ensures number { IfOk result (λ s. s.number ≡ length signature.old.symbols) }
    ensures ok { OnOk result (signature.new ≡ with_symbol signature.old (record { name = text.now; kind = kind; arity = arity })) }
    ensures unchanged { OnErr result (signature.new ≡ signature.old) }
{
    match signature.add_symbol(text, kind, arity) {
        Ok(sym) => Ok(sym),
        Err(AddRefusal::Twice) => unreachable!(),
        Err(AddRefusal::Memory) => Err(AllocError),
    }
}

/// The projection of tuples with this index, which is counted from 1. (A `u32` holds the number, since the tables of symbols
/// are smaller.)
pub fn projection_symbol(tuple: Sym, index: u32) -> Result<Sym, NoMemory>
    ensures { IfOk result (λ s. s ≡ record { number = tuple.number + index }) }
{
    let number = tuple.number.checked_add(index).ok_or(AllocError)?;
    Ok(Sym { number })
}
