//! Trees with their tokens.

ghost use Rattle.std.specs.Prelude.{◌≡◌, [], All, IfOk};
ghost use Rattle.dps_syntax.specs.Built.{IsBalanced, pieces, labelled};
ghost use Rattle.dps_syntax.specs.Files.{lexemes_at, words_at};
ghost use Rattle.dps_syntax.specs.Marks.{mark_words};
ghost use Rattle.dps_syntax.specs.Parts.{parts_of};
ghost use Rattle.dps_syntax.specs.Spans.{IsSpan};

use crate::builder::Builder;
use crate::grammar::Mark;
use crate::leaf::leaf_of;
use crate::tree::Part;
use dps_lex::Token;
use std::alloc::{AllocError, Global};

/// The trees with these marks and these tokens.
#[tactic(auto, using(crate::proofs::Labels::for_trees))]
pub(crate) fn forest_of(
    alloc: Global,
    bytes: &[u8],
    tokens: &[Token],
    marks: &[Mark],
) -> Result<Vec<Part>, AllocError>
    requires spans { All (IsSpan bytes.now) tokens.now }
    requires balanced { IsBalanced marks.now [] }
    requires spelled { mark_words marks.now ≡ words_at bytes.now tokens.now }
    ensures { IfOk result (λ found. pieces (parts_of found.items) [] ≡ labelled marks.now (lexemes_at bytes.now tokens.now)) }
{
    let mut builder = Builder::new(alloc);
    let mut next = 0;
    for mark in marks {
        match *mark {
            Mark::Open(production) => builder.open(alloc, production)?,
            Mark::Close(_) => builder.close()?,
            Mark::Token(_) => {
                builder.add(leaf_of(alloc, bytes, tokens[next])?)?;
                next += 1;
            }
        }
    }
    let Builder { parts, .. } = builder;
    Ok(parts)
}
