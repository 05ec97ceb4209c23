//! Tokens as words of the grammar, and as leaves of trees.

ghost use Rattle.std.specs.Prelude.{◌≡◌, All, IfOk, slice_range};
ghost use Rattle.dps_syntax.specs.Tree.{is_zero, word_of};
ghost use Rattle.dps_syntax.specs.Files.{lexeme_at, words_at};
ghost use Rattle.dps_syntax.specs.Spans.{IsSpan};

use crate::grammar::Word;
use crate::tree::Leaf;
use dps_lex::Token;
use std::alloc::{AllocError, Global};

/// The bytes of a token.
fn text_of(bytes: &[u8], token: Token) -> &[u8]
    requires { IsSpan bytes.now token }
    ensures { result.now ≡ slice_range bytes.now token.start token.end }
{
    &bytes[token.start as usize..token.end as usize]
}

/// Whether this is the text of the number `0`.
fn is_zero_text(text: &[u8]) -> bool
    ensures { result ≡ is_zero text.now }
{
    matches!(text, [b'0'])
}

/// What the grammar sees of a token.
fn word_at(bytes: &[u8], token: Token) -> Word
    requires { IsSpan bytes.now token }
    ensures { result ≡ word_of (lexeme_at bytes.now token) }
{
    if is_zero_text(text_of(bytes, token)) {
        Word::Zero
    } else {
        Word::Of(token.kind)
    }
}

/// What the grammar sees of some tokens.
#[tactic(auto, using(crate::proofs::Leaves::one_more_word))]
pub(crate) fn words_of(
    alloc: Global,
    bytes: &[u8],
    tokens: &[Token],
) -> Result<Vec<Word>, AllocError>
    requires { All (IsSpan bytes.now) tokens.now }
    ensures { IfOk result (λ words. words.items ≡ words_at bytes.now tokens.now) }
{
    let mut words = Vec::with_capacity(alloc, tokens.len())?;
    for token in tokens {
        words.push(word_at(bytes, *token))?;
    }
    Ok(words)
}

/// The leaf of a token.
#[tactic(auto, using(crate::proofs::Leaves::text_is_utf8))]
pub(crate) fn leaf_of(alloc: Global, bytes: &[u8], token: Token) -> Result<Leaf, AllocError>
    requires { IsSpan bytes.now token }
    ensures { IfOk result (λ leaf. leaf ≡ lexeme_at bytes.now token) }
{
    match str::from_utf8(text_of(bytes, token)) {
        Err(_) => unreachable!(),
        Ok(text) => Ok(Leaf {
            kind: token.kind,
            text: String::from_str(alloc, text)?,
            line: token.line,
            column: token.column,
        }),
    }
}
