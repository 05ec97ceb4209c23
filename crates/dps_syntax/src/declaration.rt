//! Declarations by their keywords.

ghost use Rattle.std.specs.Prelude.{◌≡◌, All, IfOk};
ghost use Rattle.dps_syntax.specs.Files.{first_kind, tree_of, trees_of, HasItsKeyword};
ghost use Rattle.dps_syntax.specs.Parts.{parts_of};
ghost use Rattle.dps_syntax.specs.Spans.{IsOpening, AreDeclarations};

use crate::tree::{Decl, Part, Tree};
use dps_lex::TokenKind;
use std::alloc::{AllocError, Global};

/// The kind of a tree's first token, where a token is its first part.
fn first_kind_of(tree: &Tree) -> Option<TokenKind>
    ensures { result ≡ first_kind tree.now.parts }
{
    match tree.parts.as_slice() {
        [Part::Token(leaf), ..] => Some(leaf.kind),
        [Part::Inner(_), ..] => None,
        [] => None,
    }
}

/// The declaration with this tree.
fn declaration_of(tree: Tree) -> Decl
    requires { IsOpening (first_kind tree.parts) }
    ensures tree { tree_of result ≡ tree }
    ensures keyword { HasItsKeyword result }
{
    match first_kind_of(&tree) {
        Some(TokenKind::Free) => Decl::Free(tree),
        Some(TokenKind::Const) => Decl::Const(tree),
        Some(TokenKind::Fun) => Decl::Fun(tree),
        Some(TokenKind::Reduc) => Decl::Reduc(tree),
        Some(TokenKind::Let) => Decl::Define(tree),
        Some(TokenKind::Query) => Decl::Query(tree),
        _ => unreachable!(),
    }
}

/// The declarations with these trees.
#[tactic(auto, using(crate::proofs::Declared::for_declarations))]
pub(crate) fn declarations_of(alloc: Global, parts: Vec<Part>) -> Result<Vec<Decl>, AllocError>
    requires { AreDeclarations (parts_of parts.items) }
    ensures trees { IfOk result (λ found. trees_of found.items ≡ parts_of parts.items) }
    ensures keywords { IfOk result (λ found. All HasItsKeyword found.items) }
{
    let mut declarations = Vec::with_capacity(alloc, parts.len())?;
    for part in parts {
        match part {
            Part::Token(_) => unreachable!(),
            Part::Inner(tree) => declarations.push(declaration_of(tree))?,
        }
    }
    Ok(declarations)
}
