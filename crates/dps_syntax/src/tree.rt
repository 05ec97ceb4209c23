//! Files and their trees.

ghost use Rattle.std.specs.Prelude.{◌≡◌};

use crate::grammar::Production;
use dps_lex::TokenKind;
use std::marker::Model;

/// A whole file: declarations, and the query at its end.
#[derive(Drop)]
pub struct File {
    /// They are in text order. The last one is the query, and no other is.
    pub declarations: Vec<Decl>,
}

/// A declaration or the query, by the keyword that it begins with.
#[derive(Drop)]
pub enum Decl {
    /// `free`: names.
    Free(Tree),
    /// `const`: names.
    Const(Tree),
    /// `fun`: constructors with their arities.
    Fun(Tree),
    /// `reduc`: rewrite rules.
    Reduc(Tree),
    /// `let`: a process with a name.
    Define(Tree),
    /// `query`: the two processes to be compared.
    Query(Tree),
}

/// One production as it was used: its tokens and its inner productions, in text order.
#[cycle(tree)]
#[derive(Drop)]
pub struct Tree {
    /// Which production it is.
    pub production: Production,
    /// Its parts. Those of a `Par` are all processes of a chain of `|` and the signs between them, and so for a `Sum`.
    pub parts: Vec<Part>,
}

/// A token or an inner production.
#[cycle(tree)]
#[derive(Drop)]
pub enum Part {
    /// A token.
    Token(Leaf),
    /// An inner production.
    Inner(Tree),
}

/// One token.
#[derive(Drop)]
pub struct Leaf {
    /// What it is.
    pub kind: TokenKind,
    /// Its bytes in the text.
    pub text: String,
    /// The line of its first byte, from 1.
    pub line: u32,
    /// The column of its first byte, from 1, in bytes.
    pub column: u32,
}

impl Model for Leaf {
    ghost use Rattle.std.specs.Prelude.{string_bytes};
    ghost use Rattle.dps_syntax.specs.Tree.{Lexeme, lexeme_code};

    ghost Value = { Lexeme };

    ghost coded = { lexeme_code };

    ghost view = { λ a. record { kind = a.kind; text = string_bytes a.text; line = a.line; column = a.column } };
}

impl Model for Tree {
    ghost use Rattle.dps_syntax.specs.Tree.{Derivation, derivation_code, node_count};

    ghost Value = { Derivation };

    ghost coded = { derivation_code };

    ghost use Rattle.dps_syntax.specs.Parts.{parts_of};

    ghost view = { λ a. record { production = a.production; parts = parts_of a.parts.items } };

    ghost size = { node_count };

    ghost use Rattle.dps_syntax.specs.Deeper.{deep_le-count};

    ghost size_decreases = { λ a h. deep_le-count a.parts.items };
}
