//! What is read, and not judged yet.
ghost use Rattle.std.specs.Prelude.{◌≡◌, ◌≤◌, IsTrue};
ghost use Rattle.dps_syntax.specs.Files.{tree_of as derivation_of, trees_of};
ghost use Rattle.dps_syntax.specs.Parts.{parts_of};
ghost use Rattle.dps_scopes.specs.Scopes.{begins_as_projection as begins};
ghost use Rattle.dps_judge.specs.Unbuilt.{is_unbuilt_word as unbuilt_word, is_unbuilt as unbuilt, may_be_tuple as may_be, has_comma as comma_in, opening as opening_of, first_of as first_in_tree, first_among, first_unbuilt as first_place};

use dps_lex::{Place, TokenKind};
use dps_scopes::fault::place_of;
use dps_syntax::{Decl, File, Leaf, Part, Production, Tree};

fn begins_as_projection(text: &str) -> bool
    ensures { result ≡ begins text.now }
{
    match text.as_bytes() {
        [p, r, o, j, line, ..] => {
            *p == b'p' && *r == b'r' && *o == b'o' && *j == b'j' && *line == b'_'
        }
        _ => false,
    }
}

/// `reduc`, the mark `private`, `+`, `in`, `if`, and an identifier that begins with `proj_`.
fn is_unbuilt_word(leaf: &Leaf) -> bool
    ensures { result ≡ unbuilt_word leaf.now }
{
    match leaf.kind {
        TokenKind::Reduc | TokenKind::Private | TokenKind::Plus | TokenKind::In | TokenKind::If => {
            true
        }
        TokenKind::Identifier => begins_as_projection(leaf.text.as_str()),
        _ => false,
    }
}

/// The same, and `let` in a process.
fn is_unbuilt(production: Production, leaf: &Leaf) -> bool
    ensures { result ≡ unbuilt production leaf.now }
{
    is_unbuilt_word(leaf) || (production == Production::Pre && leaf.kind == TokenKind::Let)
}

fn may_be_tuple(production: Production) -> bool
    ensures { result ≡ may_be production }
{
    match production {
        Production::Term | Production::Pattern => true,
        _ => false,
    }
}

/// Whether a comma stands between the parts.
fn has_comma(parts: &[Part]) -> bool
    ensures { result ≡ comma_in (parts_of parts.now) }
{
    for part in parts {
        match part {
            Part::Token(leaf) => {
                if leaf.kind == TokenKind::Comma {
                    return true;
                }
            }
            Part::Inner(_) => {}
        }
    }
    false
}

/// The opening bracket of a tuple.
fn opening(tree: &Tree) -> Option<Place>
    ensures { result ≡ opening_of tree.now.production tree.now.parts }
{
    match tree.parts.as_slice() {
        [Part::Token(leaf), rest @ ..] => {
            let is_tuple = may_be_tuple(tree.production)
                && leaf.kind == TokenKind::OpenParenthesis
                && has_comma(rest);
            if is_tuple { Some(place_of(leaf)) } else { None }
        }
        [Part::Inner(_), ..] => None,
        [] => None,
    }
}

#[cycle(search)]
/// The first token of a production that begins what is not judged yet.
fn first_of(tree: &Tree) -> Option<Place>
    ensures { result ≡ first_in_tree tree.now }
{
    match opening(tree) {
        Some(place) => Some(place),
        None => first_in(tree.production, tree.parts.as_slice()),
    }
}

#[cycle(search)]
/// The first among some parts of a production.
fn first_in(production: Production, parts: &[Part]) -> Option<Place>
    ensures { result ≡ first_among production (parts_of parts.now) }
{
    for part in parts {
        match part {
            Part::Token(leaf) => {
                if is_unbuilt(production, leaf) {
                    return Some(place_of(leaf));
                }
            }
            Part::Inner(tree) => {
                if let Some(place) = first_of(tree) {
                    return Some(place);
                }
            }
        }
    }
    None
}

fn tree_of(decl: &Decl) -> &Tree
    ensures { result.now ≡ derivation_of decl.now }
{
    match decl {
        Decl::Free(tree) => tree,
        Decl::Const(tree) => tree,
        Decl::Fun(tree) => tree,
        Decl::Reduc(tree) => tree,
        Decl::Define(tree) => tree,
        Decl::Query(tree) => tree,
    }
}

/// Where the file first uses what is not judged yet, and `None` exactly where it does not.
pub fn first_unbuilt(file: &File) -> Option<Place>
    ensures { result ≡ first_place file.now.declarations.items }
{
    for decl in &file.declarations {
        if let Some(place) = first_of(tree_of(decl)) {
            return Some(place);
        }
    }
    None
}
