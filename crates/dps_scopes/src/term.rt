//! Terms of processes. Each function reads the parts of one production.
ghost use Rattle.std.specs.Prelude.{◌≡◌, ◌≤◌, ◌<◌, ◌+◌, [], ◌∷◌, length, vec_len, IfOk, IfErr, OnOk};
ghost use Rattle.dps_terms.specs.Tree.{private, var};
ghost use Rattle.dps_syntax.specs.Parts.{parts_of};
ghost use Rattle.dps_scopes.specs.Outcome.{Answers};
ghost use Rattle.dps_scopes.specs.Blocks.{blocks};
ghost use Rattle.dps_scopes.specs.Terms.{term, terms, count_inner, written, applied, name_written, identifier_as, tuple_of, identifier, the_first};
ghost use Rattle.dps_scopes.specs.Scopes.{IsMeaningOver};
ghost use Rattle.dps_scopes.specs.Growth.{GrowsByTuples};

use crate::definitions::Definitions;
use crate::fault::{fault_at, place_of};
use crate::meaning::{Meaning, meaning_of};
use crate::parts::{count_inner, is_kind};
use crate::scope::Scope;
use crate::signature::{SignatureBuilder, projection_symbol, tuple_symbol};
use crate::{NameCause, NameRefusal, Use, Written};
use dps_lex::TokenKind;
use dps_syntax::{Leaf, Part};
use dps_terms::{NoMemory, PublicName, Sym, Term};
use std::alloc::{AllocError, Global};

/// The greatest arity, and the greatest length of a tuple.
pub const MOST_ARGUMENTS: usize = 8;

/// `var i`, for a local.
fn local_written(alloc: Global, number: usize) -> Result<Written, NoMemory>
    ensures { IfOk result (λ w. w ≡ written (var number) (Use.Local number ∷ [])) }
{
    Ok(Written {
        tree: Term::var(alloc, number as u64)?,
        uses: vec![in alloc; Use::Local(number)]?,
    })
}

/// The first private name, of which nothing is used: what no text writes. A private name may stand in any scope.
fn nothing_written(alloc: Global) -> Result<Written, NoMemory>
    ensures { IfOk result (λ w. w ≡ written (private 0) []) }
{
    Ok(Written {
        tree: Term::private(alloc, 0)?,
        uses: Vec::new(alloc),
    })
}

/// A declared name. A private one is written as its number among the private ones.
fn name_written(
    alloc: Global,
    signature: &SignatureBuilder,
    leaf: &Leaf,
    number: u32,
    private: bool,
) -> Result<Written, NoMemory>
    requires { number < length signature.now.names }
    ensures { IfOk result (λ w. w ≡ name_written signature.now leaf.now number private) }
{
    if private {
        Ok(Written {
            tree: Term::private(alloc, signature.signature().private_number(number))?,
            uses: vec![in alloc; Use::PrivateName(number, place_of(leaf))]?,
        })
    } else {
        Ok(Written {
            tree: Term::public(alloc, PublicName::Declared(number))?,
            uses: Vec::new(alloc),
        })
    }
}

/// A symbol over terms, of which there are at most eight.
#[tactic(auto, using(crate::proofs::Applying::for_applied))]
fn applied(alloc: Global, sym: Sym, arguments: Vec<Written>) -> Result<Written, NoMemory>
    requires { vec_len arguments ≤ 8 }
    ensures { IfOk result (λ w. w ≡ applied sym arguments.items) }
{
    let mut trees = Vec::with_capacity(alloc, arguments.len())?;
    let mut uses = Vec::new(alloc);
    for argument in arguments {
        let Written { tree, uses: used } = argument;
        trees.push(tree)?;
        uses.extend_from_slice(used.as_slice())?;
    }
    Ok(Written {
        tree: Term::app(alloc, sym, trees)?,
        uses,
    })
}

/// What a term says: Term = id [ "(" [ Term { "," Term } ] ")" ] | "(" Term { "," Term } ")"
///
/// The symbols of a tuple or projection that is new are added to the signature. The error is the first fault of the term's
/// names, or out of memory.
#[cycle(term)]
#[tactic(auto, using(crate::proofs::Growth::for_terms))]
pub fn term(
    alloc: Global,
    definitions: &Definitions,
    scope: &Scope<'_>,
    parts: &[Part],
    signature: &mut SignatureBuilder,
) -> Result<Written, NameRefusal>
    ensures found { Answers (λ w. w) signature.new result (term definitions.now (blocks scope.now) (parts_of parts.now) signature.old) }
    ensures grown { GrowsByTuples signature.old signature.new }
{
    match parts {
        [] => Ok(nothing_written(alloc)?),
        [Part::Inner(tree), ..] => {
            term(alloc, definitions, scope, tree.parts.as_slice(), signature)
        }
        [Part::Token(leaf), rest @ ..] => {
            if is_kind(leaf, TokenKind::Identifier) {
                let meaning = meaning_of(definitions, scope, &*signature, leaf.text.as_str())?;
                identified(alloc, definitions, scope, leaf, rest, meaning, signature)
            } else {
                bracketed(alloc, definitions, scope, leaf, rest, signature)
            }
        }
    }
}

/// An identifier with what it means, and the arguments behind it.
#[cycle(term)]
#[tactic(auto, using(crate::proofs::Growth::for_applied))]
fn identified(
    alloc: Global,
    definitions: &Definitions,
    scope: &Scope<'_>,
    leaf: &Leaf,
    arguments: &[Part],
    meaning: Meaning,
    signature: &mut SignatureBuilder,
) -> Result<Written, NameRefusal>
    requires { IsMeaningOver signature.old meaning }
    ensures found { Answers (λ w. w) signature.new result (identifier_as leaf.now (count_inner (parts_of arguments.now)) (terms definitions.now (blocks scope.now) (parts_of arguments.now)) signature.old meaning) }
    ensures grown { GrowsByTuples signature.old signature.new }
{
    let count = count_inner(arguments);
    match meaning {
        Meaning::Local(number) => {
            if count != 0 {
                return fault_at(NameCause::WrongArity, leaf);
            }
            Ok(local_written(alloc, number)?)
        }
        Meaning::Name(number, private) => {
            if count != 0 {
                return fault_at(NameCause::WrongArity, leaf);
            }
            Ok(name_written(alloc, &*signature, leaf, number, private)?)
        }
        Meaning::Function(sym, arity) => {
            if count != arity as usize || MOST_ARGUMENTS < count {
                return fault_at(NameCause::WrongArity, leaf);
            }
            let arguments = terms(alloc, definitions, scope, arguments, signature)?;
            Ok(applied(alloc, sym, arguments)?)
        }
        Meaning::Process(_, _) => fault_at(NameCause::WrongKind, leaf),
        Meaning::Projection(projection) => {
            if count != 1 {
                return fault_at(NameCause::WrongArity, leaf);
            }
            let tuple = tuple_symbol(alloc, signature, projection.length)?;
            let sym = projection_symbol(tuple, projection.index)?;
            let arguments = terms(alloc, definitions, scope, arguments, signature)?;
            Ok(applied(alloc, sym, arguments)?)
        }
        Meaning::Unknown => fault_at(NameCause::UnknownName, leaf),
    }
}

/// Brackets round one term are nothing, and round several they are a tuple.
#[cycle(term)]
#[tactic(auto, using(crate::proofs::Growth::for_brackets))]
fn bracketed(
    alloc: Global,
    definitions: &Definitions,
    scope: &Scope<'_>,
    leaf: &Leaf,
    members: &[Part],
    signature: &mut SignatureBuilder,
) -> Result<Written, NameRefusal>
    ensures found { Answers (λ w. w) signature.new result (tuple_of (count_inner (parts_of members.now)) (terms definitions.now (blocks scope.now) (parts_of members.now)) signature.old leaf.now) }
    ensures grown { GrowsByTuples signature.old signature.new }
{
    let count = count_inner(members);
    if count <= 1 {
        let members = terms(alloc, definitions, scope, members, signature)?;
        return Ok(first_of(alloc, members)?);
    }
    if MOST_ARGUMENTS < count {
        return fault_at(NameCause::LargeArity, leaf);
    }
    let sym = tuple_symbol(alloc, signature, count as u32)?;
    let members = terms(alloc, definitions, scope, members, signature)?;
    Ok(applied(alloc, sym, members)?)
}

/// The first of some terms.
fn first_of(alloc: Global, terms: Vec<Written>) -> Result<Written, NoMemory>
    ensures { IfOk result (λ w. w ≡ the_first terms.items) }
{
    match terms.into_iter().next() {
        Some(first) => Ok(first),
        None => nothing_written(alloc),
    }
}

/// The terms in a row, between signs. The error is the first fault of their names, or out of memory.
#[cycle(term)]
#[tactic(auto, using(crate::proofs::Rows::for_rows, crate::proofs::Growth::for_rows))]
pub fn terms(
    alloc: Global,
    definitions: &Definitions,
    scope: &Scope<'_>,
    parts: &[Part],
    signature: &mut SignatureBuilder,
) -> Result<Vec<Written>, NameRefusal>
    ensures count { IfOk result (λ v. vec_len v ≡ count_inner (parts_of parts.now)) }
    ensures found { Answers (λ v. v.items) signature.new result (terms definitions.now (blocks scope.now) (parts_of parts.now) signature.old) }
    ensures grown { GrowsByTuples signature.old signature.new }
{
    let mut found = Vec::new(alloc);
    for part in parts {
        let Part::Inner(tree) = part else {
            continue;
        };
        let written = term(alloc, definitions, scope, tree.parts.as_slice(), signature)?;
        found.push(written)?;
    }
    Ok(found)
}

/// An identifier alone, as in a channel's place. The error is its fault, or out of memory.
#[tactic(auto, using(crate::proofs::Growth::for_terms))]
pub fn identifier(
    alloc: Global,
    definitions: &Definitions,
    scope: &Scope<'_>,
    leaf: &Leaf,
    signature: &mut SignatureBuilder,
) -> Result<Written, NameRefusal>
    ensures found { Answers (λ w. w) signature.new result (identifier definitions.now (blocks scope.now) leaf.now signature.old) }
    ensures grown { GrowsByTuples signature.old signature.new }
{
    let meaning = meaning_of(definitions, scope, &*signature, leaf.text.as_str())?;
    identified(alloc, definitions, scope, leaf, &[], meaning, signature)
}
