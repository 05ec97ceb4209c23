//! Whether a tree stands in another one.
ghost use Rattle.std.specs.Prelude.{◌↔◌, IsTrue};
ghost use Rattle.dps_terms.specs.Tree.{IsSubterm, IsStrictSubterm};
ghost use Rattle.dps_terms.specs.Seen.{seen};

use dps_terms::TermRef;

/// Whether the part is a subterm of the term.
#[cycle(subterms)]
pub(crate) fn is_subterm(part: TermRef<'_>, term: TermRef<'_>) -> bool
    ensures { IsTrue result ↔ IsSubterm (seen part.entry) (seen term.entry) }
{
    part.equals(term) || is_strict_subterm(part, term)
}

/// Whether the part is a subterm of an argument.
#[cycle(subterms)]
fn is_strict_subterm(part: TermRef<'_>, term: TermRef<'_>) -> bool
    ensures { IsTrue result ↔ IsStrictSubterm (seen part.entry) (seen term.entry) }
{
    for index in 0..term.arity() {
        if is_subterm(part, term.argument(index)) {
            return true;
        }
    }
    false
}
