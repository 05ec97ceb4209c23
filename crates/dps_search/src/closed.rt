//! Terms in which nothing can be put.
ghost use Rattle.std.specs.Prelude.{◌≡◌, [], false, IfOk, IsTrue};
ghost use Rattle.dps_terms.specs.Bindings.{image};
ghost use Rattle.dps_terms.specs.Kinds.{IsClosed};
ghost use Rattle.dps_terms.specs.Replace.{substitute};
ghost use Rattle.dps_terms.specs.Seen.{seen};
ghost use Rattle.dps_search.specs.Numbers.{root_numbers};

use dps_bindings::Bindings;
use dps_terms::{NoMemory, Term, TermRef, TermView};
use std::alloc::Global;

/// The term with what is put for variables.
pub(crate) fn instance(alloc: Global, theta: &Bindings, term: TermRef<'_>) -> Result<Term, NoMemory>
    ensures { IfOk result (λ t. t ≡ substitute (image theta.now) (seen term.entry)) }
{
    if is_closed(term) {
        return term.copy(alloc);
    }
    term.replaced(alloc, theta)
}

/// Whether no variable stands in the term.
pub(crate) fn is_closed(term: TermRef<'_>) -> bool
    ensures { IsTrue result → IsClosed (seen term.entry) }
{
    let mut left = term.node_count();
    while left > 0 {
        left -= 1;
        if is_variable(term.subterm(left)) {
            return false;
        }
    }
    true
}

/// Whether the term is a variable.
fn is_variable(term: TermRef<'_>) -> bool
    ensures { result ≡ false → root_numbers (seen term.entry) ≡ [] }
{
    match term.view() {
        TermView::Var(_) => true,
        _ => false,
    }
}
