//! The kinds and the arities of symbols.
ghost use Rattle.std.specs.Prelude.{◌≡◌, ◌↔◌, map, IfOk, IsTrue};
ghost use Rattle.dps_signature.specs.Signature.{shapes, HasShape};
ghost use Rattle.dps_theory.specs.Held.{shape_of};

use dps_signature::{Signature, SymKind};
use dps_terms::{NoMemory, Sym};
use std::alloc::Global;

#[derive(Clone, Copy, Debug, PartialEq, Eq)]
pub(crate) struct SymbolShape {
    pub(crate) kind: SymKind,
    pub(crate) arity: u32,
}

/// The kind and the arity of each symbol.
#[tactic(auto, using(crate::proofs::Symbols::taken_next))]
pub(crate) fn shapes_of(alloc: Global, signature: &Signature) -> Result<Vec<SymbolShape>, NoMemory>
    ensures { IfOk result (λ v. map shape_of v.items ≡ shapes signature.now) }
{
    let mut found = Vec::with_capacity(alloc, signature.symbol_count() as usize)?;
    for number in 0..signature.symbol_count() {
        let sym = Sym { number };
        let kind = signature.kind(sym);
        let arity = signature.arity(sym);
        found.push(SymbolShape { kind, arity })?;
    }
    Ok(found)
}

/// Whether the symbol is there, of this kind, with so many arguments.
pub(crate) fn has_shape(known: &[SymbolShape], kind: SymKind, sym: Sym, arity: u32) -> bool
    ensures { IsTrue result ↔ HasShape (map shape_of known.now) kind sym arity }
{
    match known.get(sym.number as usize) {
        Some(shape) => shape.kind == kind && shape.arity == arity,
        None => false,
    }
}
