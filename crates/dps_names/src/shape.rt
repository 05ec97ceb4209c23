//! The shapes of processes: what stands behind their first token.
ghost use Rattle.std.specs.Prelude.{◌≡◌, ◌<◌, ◌+◌, MatchOption, IfSome};
ghost use Rattle.dps_syntax.specs.Tree.{token, count};
ghost use Rattle.dps_syntax.specs.Parts.{parts_of};
ghost use Rattle.dps_names.specs.Starts.{start_of};
ghost use Rattle.dps_names.specs.Shapes.{HasNoToken, HasNoInner, IsLed, IsGroup, IsNoGroup, IsContinued, IsEnded, IsPrefixed, IsNotPrefixed, IsExchange, IsNoExchange, IsComparison, IsNoComparison};

use dps_lex::TokenKind;
use dps_syntax::{Leaf, Part};

/// What a process begins with.
#[derive(Clone, Copy, Debug, PartialEq, Eq)]
pub(crate) enum Start {
    /// An identifier.
    Call,
    /// `(`
    Group,
    /// `!`
    Copies,
    /// `new`
    Name,
    /// `in`
    Input,
    /// `out`
    Output,
    /// `if`
    Test,
    /// `let`
    Match,
    /// `0`
    Nothing,
}

/// What the process begins with whose first token this is.
pub(crate) fn start_of(first: &Leaf) -> Start
    ensures { result ≡ start_of first.now.kind }
{
    match first.kind {
        TokenKind::Identifier => Start::Call,
        TokenKind::OpenParenthesis => Start::Group,
        TokenKind::Bang => Start::Copies,
        TokenKind::New => Start::Name,
        TokenKind::In => Start::Input,
        TokenKind::Out => Start::Output,
        TokenKind::If => Start::Test,
        TokenKind::Let => Start::Match,
        _ => Start::Nothing,
    }
}

/// The first token, and what stands behind it.
pub(crate) fn begun(parts: &[Part]) -> Option<(&Leaf, &[Part])>
    ensures found { MatchOption result (HasNoToken (parts_of parts.now)) (λ f. parts_of parts.now ≡ token f.0.now (parts_of f.1.now)) }
    ensures smaller { IfSome result (λ f. count (parts_of f.1.now) < count (parts_of parts.now)) }
{
    match parts {
        [Part::Token(leaf), rest @ ..] => Some((leaf, rest)),
        _ => None,
    }
}

/// The production that stands first, and what stands behind it.
pub(crate) fn led(parts: &[Part]) -> Option<(&[Part], &[Part])>
    ensures found { MatchOption result (HasNoInner (parts_of parts.now)) (λ f. IsLed (parts_of parts.now) (parts_of f.0.now) (parts_of f.1.now)) }
    ensures smaller { IfSome result (λ f. count (parts_of f.0.now) + count (parts_of f.1.now) < count (parts_of parts.now)) }
{
    match parts {
        [Part::Inner(tree), rest @ ..] => Some((tree.parts.as_slice(), rest)),
        _ => None,
    }
}

/// The production that stands first.
pub(crate) fn group(parts: &[Part]) -> Option<&[Part]>
    ensures found { MatchOption result (IsNoGroup (parts_of parts.now)) (λ f. IsGroup (parts_of parts.now) (parts_of f.now)) }
    ensures smaller { IfSome result (λ f. count (parts_of f.now) < count (parts_of parts.now)) }
{
    match parts {
        [Part::Inner(tree), ..] => Some(tree.parts.as_slice()),
        _ => None,
    }
}

/// The production behind a token.
#[tactic(auto, using(crate::proofs::Shaping::for_continuation))]
pub(crate) fn continuation(parts: &[Part]) -> Option<&[Part]>
    ensures found { MatchOption result (IsEnded (parts_of parts.now)) (λ f. IsContinued (parts_of parts.now) (parts_of f.now)) }
    ensures smaller { IfSome result (λ f. count (parts_of f.now) < count (parts_of parts.now)) }
{
    let (_, rest) = begun(parts)?;
    let (inside, _) = led(rest)?;
    Some(inside)
}

/// Two tokens, and the production behind them.
#[tactic(auto, using(crate::proofs::Shaping::for_prefix))]
pub(crate) fn prefix(parts: &[Part]) -> Option<(&Leaf, &Leaf, &[Part])>
    ensures found { MatchOption result (IsNotPrefixed (parts_of parts.now)) (λ f. IsPrefixed (parts_of parts.now) f.0.now f.1.now (parts_of f.2.now)) }
    ensures smaller { IfSome result (λ f. count (parts_of f.2.now) < count (parts_of parts.now)) }
{
    let (first, rest) = begun(parts)?;
    let (second, rest) = begun(rest)?;
    let (inside, _) = led(rest)?;
    Some((first, second, inside))
}

/// What stands in the brackets of `in` and `out`, and what stands behind them.
#[tactic(auto, using(crate::proofs::Shaping::for_exchange))]
pub(crate) fn exchange(parts: &[Part]) -> Option<(&Leaf, &[Part], &[Part])>
    ensures found { MatchOption result (IsNoExchange (parts_of parts.now)) (λ f. IsExchange (parts_of parts.now) f.0.now (parts_of f.1.now) (parts_of f.2.now)) }
    ensures smaller { IfSome result (λ f. count (parts_of f.2.now) < count (parts_of parts.now)) }
{
    let (_, rest) = begun(parts)?;
    let (name, rest) = begun(rest)?;
    let (_, rest) = begun(rest)?;
    let (inside, rest) = led(rest)?;
    let (_, rest) = begun(rest)?;
    Some((name, inside, rest))
}

/// The two sides of an equation, the process behind it, and what stands behind that.
#[tactic(auto, using(crate::proofs::Shaping::for_comparison))]
pub(crate) fn comparison(parts: &[Part]) -> Option<(&[Part], &[Part], &[Part], &[Part])>
    ensures found { MatchOption result (IsNoComparison (parts_of parts.now)) (λ f. IsComparison (parts_of parts.now) (parts_of f.0.now) (parts_of f.1.now) (parts_of f.2.now) (parts_of f.3.now)) }
    ensures smaller { IfSome result (λ f. count (parts_of f.2.now) + count (parts_of f.3.now) < count (parts_of parts.now)) }
{
    let (left, rest) = led(parts)?;
    let (_, rest) = begun(rest)?;
    let (right, rest) = led(rest)?;
    let (_, rest) = begun(rest)?;
    let (chosen, rest) = led(rest)?;
    Some((left, right, chosen, rest))
}
