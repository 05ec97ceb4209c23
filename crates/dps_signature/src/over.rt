//! Which terms are over a signature.
ghost use Rattle.std.specs.Prelude.{◌↔◌, IsTrue};
ghost use Rattle.dps_terms.specs.Seen.{seen};
ghost use Rattle.dps_signature.specs.Kinds.{IsOver};
ghost use Rattle.dps_signature.specs.Over.{IsRootOver};

use crate::Signature;
use dps_terms::{PublicName, Term, TermRef, TermView};

/// Whether the term is over the signature: each of its symbols is there and has as many arguments as its arity says, and
/// each of its declared names is a public name there. It takes no memory, and no stack by depth.
pub fn is_over(term: &Term, signature: &Signature) -> bool
    ensures { IsTrue result ↔ IsOver signature.now term.now }
{
    let whole = term.whole();
    for node in 0..whole.node_count() {
        if !is_root_over(whole.subterm(node), signature) {
            return false;
        }
    }
    true
}

/// Whether the symbol or the leaf at the root is over the signature.
fn is_root_over(term: TermRef<'_>, signature: &Signature) -> bool
    ensures { IsTrue result ↔ IsRootOver signature.now (seen term.entry) }
{
    match term.view() {
        TermView::App(sym) => signature.has_arity(sym, term.arity() as usize),
        TermView::Public(PublicName::Declared(number)) => signature.has_public(number),
        _ => true,
    }
}
