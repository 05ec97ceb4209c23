//! The parts of a production.
ghost use Rattle.std.specs.Prelude.{◌≡◌};
ghost use Rattle.dps_syntax.specs.Parts.{parts_of};
ghost use Rattle.dps_scopes.specs.Terms.{is_kind, count_inner};
ghost use Rattle.dps_scopes.specs.RuleTerms.{has_more};

use dps_lex::TokenKind;
use dps_syntax::{Leaf, Part};

/// Whether the token is of this kind.
pub fn is_kind(leaf: &Leaf, kind: TokenKind) -> bool
    ensures { result ≡ is_kind kind leaf.now }
{
    kind == leaf.kind
}

/// How many productions stand in a row.
#[tactic(auto, using(crate::proofs::Rows::for_counting))]
pub fn count_inner(parts: &[Part]) -> usize
    ensures { result ≡ count_inner (parts_of parts.now) }
{
    let mut count = 0;
    for part in parts {
        if let Part::Inner(_) = part {
            count += 1;
        }
    }
    count
}

/// Whether something stands there.
pub(crate) fn has_more(parts: &[Part]) -> bool
    ensures { result ≡ has_more (parts_of parts.now) }
{
    match parts {
        [] => false,
        [Part::Token(_), ..] => true,
        [Part::Inner(_), ..] => true,
    }
}
