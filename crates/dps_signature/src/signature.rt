//! Signatures: the symbols and the names that a text declares.
ghost use Rattle.std.specs.Prelude.{◌≡◌, ◌<◌, ◌≤◌, ◌^◌, ◌↔◌, [], length, take, slice_get, Some, None, Err, IfOk, OnOk, OnErr, IsTrue};
ghost use Rattle.std.specs.Option.{option_map};
ghost use Rattle.dps_signature.specs.Signature.{HasArity, IsPublic, private_number, shapes};
ghost use Rattle.dps_signature.specs.Spelled.{IsSpelled};
ghost use Rattle.dps_signature.specs.Names.{IsIdentifier, IsSymbolText, IsDeclaredText, symbol_named, name_named, with_symbol, with_name};

use crate::SymKind;
use dps_terms::{NoMemory, Sym};
use indexmap::IndexMap;
use std::alloc::{AllocError, Global};
use std::marker::Model;
use thiserror::Error;

/// Why a symbol or a name was not added.
#[derive(Debug, Drop, Error)]
pub enum AddRefusal {
    /// A symbol or a name with this text is there.
    #[error("declared twice")]
    Twice,
    #[error("out of memory")]
    Memory,
}

#[derive(Clone, Copy, Debug, PartialEq, Eq)]
struct SymbolShape {
    kind: SymKind,
    arity: u32,
}

/// Whether a name is private, and how many private names were added before it.
#[derive(Clone, Copy, Debug, PartialEq, Eq)]
struct NameShape {
    private: bool,
    private_before: u64,
}

/// The symbols and the declared names of a text, each numbered from 0 in the order of addition.
///
/// Public and private names are numbered together. Look-ups take no memory, and those by text hash the text once.
#[derive(Drop)]
pub struct Signature {
    symbols: IndexMap<String, SymbolShape>,
    names: IndexMap<String, NameShape>,
    private_count: u64,
}

impl Model for Signature {
    ghost use Rattle.std.specs.Prelude.{◌≤◌, ◌^◌, length, map, string_bytes};
    ghost use Rattle.dps_signature.specs.Signature.{Signature};
    ghost use Rattle.dps_signature.specs.Counted.{symbol_of, name_of, AreCounted};
    ghost use Rattle.dps_signature.specs.Spelled.{IsSpelled};

    ghost Value = { Signature };

    ghost invariant = { λ a. (length a.symbols.entries ≤ 2 ^ 24) × (length a.names.entries ≤ 2 ^ 24) × AreCounted a.names.entries a.private_count × IsSpelled (record { symbols = map symbol_of a.symbols.entries; names = map name_of a.names.entries }) };

    ghost view = { λ a. record { symbols = map symbol_of a.symbols.entries; names = map name_of a.names.entries } };
}

impl Signature {
    /// The signature of a text that declares nothing. It takes no memory.
    pub fn new(alloc: Global) -> Signature
        ensures { result ≡ record { symbols = []; names = [] } }
    {
        Signature {
            symbols: IndexMap::new(alloc),
            names: IndexMap::new(alloc),
            private_count: 0,
        }
    }

    /// The same signature, in memory of its own.
    pub fn copy(&self) -> Result<Signature, NoMemory>
        ensures { IfOk result (λ s. s ≡ self.now) }
    {
        Ok(Signature {
            symbols: self.symbols.clone()?,
            names: self.names.clone()?,
            private_count: self.private_count,
        })
    }

    /// Adds a symbol and gives its number.
    ///
    /// Fewer than 2^24 symbols and fewer than 2^24 names are there. The text is an identifier: a letter, followed by
    /// letters, digits, `_` and `'`, of at most 64 bytes, that is not `ax` followed by digits only. Or it is the text
    /// `(n)` of a tuple's symbol, for a constructor whose arity n is 2 to 8.
    ///
    /// `Twice` comes exactly where a symbol or a name with this text is there, and `Memory` where memory was wanting.
    /// After a refusal nothing has changed.
    pub fn add_symbol(&mut self, name: &str, kind: SymKind, arity: u32) -> Result<Sym, AddRefusal>
        requires few_symbols { length self.old.symbols < 2 ^ 24 }
        requires few_names { length self.old.names < 2 ^ 24 }
        requires spelled { IsSymbolText name.now kind arity }
        ensures twice { (result ≡ Err AddRefusal.Twice) ↔ IsDeclaredText self.old name.now }
        ensures number { IfOk result (λ s. s.number ≡ length self.old.symbols) }
        ensures ok { OnOk result (self.new ≡ with_symbol self.old (record { name = name.now; kind = kind; arity = arity })) }
        ensures err { OnErr result (self.new ≡ self.old) }
    {
        if self.is_declared(name) {
            return Err(AddRefusal::Twice);
        }
        match self.append_symbol(name, kind, arity) {
            Ok(sym) => Ok(sym),
            Err(_) => Err(AddRefusal::Memory),
        }
    }

    /// Adds a name, private or public, and gives its number.
    ///
    /// Fewer than 2^24 symbols and fewer than 2^24 names are there. The text is an identifier: a letter, followed by
    /// letters, digits, `_` and `'`, of at most 64 bytes, that is not `ax` followed by digits only.
    ///
    /// `Twice` comes exactly where a symbol or a name with this text is there, and `Memory` where memory was wanting.
    /// After a refusal nothing has changed.
    pub fn add_name(&mut self, name: &str, private: bool) -> Result<u32, AddRefusal>
        requires few_symbols { length self.old.symbols < 2 ^ 24 }
        requires few_names { length self.old.names < 2 ^ 24 }
        requires spelled { IsIdentifier name.now }
        ensures twice { (result ≡ Err AddRefusal.Twice) ↔ IsDeclaredText self.old name.now }
        ensures number { IfOk result (λ n. n ≡ length self.old.names) }
        ensures ok { OnOk result (self.new ≡ with_name self.old (record { name = name.now; is_private = private })) }
        ensures err { OnErr result (self.new ≡ self.old) }
    {
        if self.is_declared(name) {
            return Err(AddRefusal::Twice);
        }
        match self.append_name(name, private) {
            Ok(number) => Ok(number),
            Err(_) => Err(AddRefusal::Memory),
        }
    }

    /// The symbol with this text, and `None` exactly where there is none.
    pub fn symbol(&self, name: &str) -> Option<Sym>
        ensures { option_map (λ s. s.number) result ≡ symbol_named self.now name.now }
    {
        match self.symbols.get_index_of(name) {
            Some(index) => Some(Sym {
                number: index as u32,
            }),
            None => None,
        }
    }

    /// The number of the declared name with this text, and `None` exactly where there is none.
    pub fn name(&self, name: &str) -> Option<u32>
        ensures { result ≡ name_named self.now name.now }
    {
        match self.names.get_index_of(name) {
            Some(index) => Some(index as u32),
            None => None,
        }
    }

    /// How many arguments the symbol takes. It has to be there.
    pub fn arity(&self, sym: Sym) -> u32
        requires { sym.number < length self.now.symbols }
        ensures { option_map (λ s. s.arity) (slice_get self.now.symbols sym.number) ≡ Some result }
    {
        match self.symbols.get_index(sym.number as usize) {
            Some((_, shape)) => shape.arity,
            None => unreachable!(),
        }
    }

    /// Whether the symbol is a constructor or a destructor. It has to be there.
    pub fn kind(&self, sym: Sym) -> SymKind
        requires { sym.number < length self.now.symbols }
        ensures { option_map (λ s. s.kind) (slice_get self.now.symbols sym.number) ≡ Some result }
    {
        match self.symbols.get_index(sym.number as usize) {
            Some((_, shape)) => shape.kind,
            None => unreachable!(),
        }
    }

    /// The symbol's text. The symbol has to be there.
    pub fn symbol_text(&self, sym: Sym) -> &str
        requires { sym.number < length self.now.symbols }
        ensures { option_map (λ s. s.name) (slice_get self.now.symbols sym.number) ≡ Some result.now }
    {
        match self.symbols.get_index(sym.number as usize) {
            Some((name, _)) => name.as_str(),
            None => unreachable!(),
        }
    }

    /// The text of the declared name with this number. There has to be one.
    pub fn name_text(&self, number: u32) -> &str
        requires { number < length self.now.names }
        ensures { option_map (λ n. n.name) (slice_get self.now.names number) ≡ Some result.now }
    {
        match self.names.get_index(number as usize) {
            Some((name, _)) => name.as_str(),
            None => unreachable!(),
        }
    }

    /// Whether the declared name with this number is private. There has to be one.
    pub fn is_private(&self, number: u32) -> bool
        requires { number < length self.now.names }
        ensures { option_map (λ n. n.is_private) (slice_get self.now.names number) ≡ Some result }
    {
        match self.names.get_index(number as usize) {
            Some((_, shape)) => shape.private,
            None => unreachable!(),
        }
    }

    /// How many of the names before the one with this number are private. So the declared private name with this number is
    /// the leaf `Private` of the answer in terms. There has to be such a name.
    pub fn private_number(&self, number: u32) -> u64
        requires { number < length self.now.names }
        ensures { result ≡ private_number self.now number }
    {
        match self.names.get_index(number as usize) {
            Some((_, shape)) => shape.private_before,
            None => unreachable!(),
        }
    }

    /// Takes the symbols away that have this number or a greater one.
    pub fn truncate_symbols(&mut self, count: u32)
        ensures { self.new ≡ record { symbols = take count self.old.symbols; names = self.old.names } }
    {
        self.symbols.truncate(count as usize);
    }

    /// How many symbols are there. At most 2^24 are.
    pub fn symbol_count(&self) -> u32
        ensures count { result ≡ length self.now.symbols }
        ensures few { result ≤ 2 ^ 24 }
    {
        self.symbols.len() as u32
    }

    /// How many names are there. At most 2^24 are.
    pub fn name_count(&self) -> u32
        ensures count { result ≡ length self.now.names }
        ensures few { result ≤ 2 ^ 24 }
    {
        self.names.len() as u32
    }

    /// Whether the symbol is there and takes so many arguments.
    pub(crate) fn has_arity(&self, sym: Sym, arity: usize) -> bool
        ensures { IsTrue result ↔ HasArity (shapes self.now) sym arity }
    {
        match self.symbols.get_index(sym.number as usize) {
            Some((_, shape)) => shape.arity as usize == arity,
            None => false,
        }
    }

    /// Whether a name with this number is there and is public.
    pub(crate) fn has_public(&self, number: u32) -> bool
        ensures { IsTrue result ↔ IsPublic self.now number }
    {
        match self.names.get_index(number as usize) {
            Some((_, shape)) => !shape.private,
            None => false,
        }
    }

    /// Whether a symbol or a name with this text is there.
    pub fn is_declared(&self, name: &str) -> bool
        ensures { IsTrue result ↔ IsDeclaredText self.now name.now }
    {
        self.symbol(name).is_some() || self.name(name).is_some()
    }

    /// Each symbol and each name has a text that it may have, and is the one that is found by it. The call does nothing.
    pub fn spelled(&self)
        ensures { IsSpelled self.now }
    {
        let _count = self.private_count;
    }

    fn append_symbol(&mut self, name: &str, kind: SymKind, arity: u32) -> Result<Sym, NoMemory>
        requires few { length self.old.symbols < 2 ^ 24 }
        requires spelled { IsSymbolText name.now kind arity }
        requires fresh { symbol_named self.old name.now ≡ None }
        requires no_name { name_named self.old name.now ≡ None }
        ensures number { IfOk result (λ s. s.number ≡ length self.old.symbols) }
        ensures ok { OnOk result (self.new ≡ with_symbol self.old (record { name = name.now; kind = kind; arity = arity })) }
        ensures err { OnErr result (self.new ≡ self.old) }
    {
        let number = self.symbols.len() as u32;
        let key = String::from_str(*self.symbols.allocator(), name)?;
        self.symbols.insert(key, SymbolShape { kind, arity })?;
        Ok(Sym { number })
    }

    fn append_name(&mut self, name: &str, private: bool) -> Result<u32, NoMemory>
        requires few { length self.old.names < 2 ^ 24 }
        requires spelled { IsIdentifier name.now }
        requires fresh { name_named self.old name.now ≡ None }
        requires no_symbol { symbol_named self.old name.now ≡ None }
        ensures number { IfOk result (λ n. n ≡ length self.old.names) }
        ensures ok { OnOk result (self.new ≡ with_name self.old (record { name = name.now; is_private = private })) }
        ensures err { OnErr result (self.new ≡ self.old) }
    {
        let number = self.names.len() as u32;
        let key = String::from_str(*self.names.allocator(), name)?;
        let shape = NameShape {
            private,
            private_before: self.private_count,
        };
        self.names.insert(key, shape)?;
        self.private_count += u64::from(private);
        Ok(number)
    }
}
