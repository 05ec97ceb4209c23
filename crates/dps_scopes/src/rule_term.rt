//! Terms of rewrite rules. An identifier that is not declared is a variable.
ghost use Rattle.std.specs.Prelude.{◌≡◌, ◌≤◌, false, vec_len, IfOk, OnOk};
ghost use Rattle.dps_terms.specs.Tree.{leaf, var};
ghost use Rattle.dps_syntax.specs.Parts.{parts_of};
ghost use Rattle.dps_scopes.specs.Outcome.{Answers};
ghost use Rattle.dps_scopes.specs.Terms.{count_inner};
ghost use Rattle.dps_scopes.specs.Scopes.{declared_meaning};
ghost use Rattle.dps_scopes.specs.Growth.{GrowsByTuples, HasTextsOf};
ghost use Rattle.dps_scopes.specs.RuleTerms.{variable_number, with_variable, identifier_in_rule, first_tree, tuple_in_rule, has_more, rule_term, rule_terms};

use crate::definitions::Definitions;
use crate::fault::fault_at;
use crate::meaning::{Meaning, declared_meaning};
use crate::parts::{count_inner, has_more, is_kind};
use crate::signature::{SignatureBuilder, tuple_symbol};
use crate::term::MOST_ARGUMENTS;
use crate::texts::Texts;
use crate::{NameCause, NameRefusal};
use dps_lex::TokenKind;
use dps_syntax::{Leaf, Part};
use dps_terms::{NoMemory, PublicName, Term};
use std::alloc::{AllocError, Global};

/// A variable, by its number. A new one gets the next number.
#[tactic(auto, using(crate::proofs::Growth::for_texts))]
fn variable(alloc: Global, name: &str, variables: &mut Texts) -> Result<Term, NoMemory>
    ensures number { IfOk result (λ t. t ≡ leaf (var (variable_number variables.old name.now))) }
    ensures variables { OnOk result (variables.new ≡ with_variable variables.old name.now) }
    ensures more { HasTextsOf variables.old variables.new }
{
    match variables.find(name) {
        Some(number) => Term::var(alloc, number as u64),
        None => {
            let number = variables.count();
            variables.push(alloc, name)?;
            Term::var(alloc, number as u64)
        }
    }
}

/// A term of a rule: Term = id [ "(" [ Term { "," Term } ] ")" ] | "(" Term { "," Term } ")"
#[cycle(rule_term)]
#[tactic(auto, using(crate::proofs::Growth::for_terms))]
fn rule_term(
    alloc: Global,
    definitions: &Definitions,
    parts: &[Part],
    signature: &mut SignatureBuilder,
    variables: &mut Texts,
) -> Result<Term, NameRefusal>
    ensures found { Answers (λ t. t) (record { signature = signature.new; variables = variables.new }) result (rule_term definitions.now (parts_of parts.now) (record { signature = signature.old; variables = variables.old })) }
    ensures grown { GrowsByTuples signature.old signature.new }
    ensures more { HasTextsOf variables.old variables.new }
{
    match parts {
        [] => Ok(Term::var(alloc, 0)?),
        [Part::Inner(tree), ..] => {
            let inside = tree.parts.as_slice();
            rule_term(alloc, definitions, inside, signature, variables)
        }
        [Part::Token(leaf), rest @ ..] => {
            if is_kind(leaf, TokenKind::Identifier) {
                identified(alloc, definitions, leaf, rest, signature, variables)
            } else {
                bracketed(alloc, definitions, leaf, rest, signature, variables)
            }
        }
    }
}

/// An identifier of a rule, and the arguments behind it.
#[cycle(rule_term)]
#[tactic(auto, using(crate::proofs::Growth::for_terms))]
fn identified(
    alloc: Global,
    definitions: &Definitions,
    leaf: &Leaf,
    arguments: &[Part],
    signature: &mut SignatureBuilder,
    variables: &mut Texts,
) -> Result<Term, NameRefusal>
    ensures found { Answers (λ t. t) (record { signature = signature.new; variables = variables.new }) result (identifier_in_rule leaf.now (has_more (parts_of arguments.now)) (count_inner (parts_of arguments.now)) (rule_terms definitions.now (parts_of arguments.now)) (record { signature = signature.old; variables = variables.old }) (declared_meaning signature.old definitions.now leaf.now.text)) }
    ensures grown { GrowsByTuples signature.old signature.new }
    ensures more { HasTextsOf variables.old variables.new }
{
    let count = count_inner(arguments);
    match declared_meaning(definitions, &*signature, leaf.text.as_str()) {
        Meaning::Name(number, private) => {
            if count != 0 {
                return fault_at(NameCause::WrongArity, leaf);
            }
            if private {
                return fault_at(NameCause::PrivateInRule, leaf);
            }
            Ok(Term::public(alloc, PublicName::Declared(number))?)
        }
        Meaning::Function(sym, arity) => {
            if count != arity as usize || MOST_ARGUMENTS < count {
                return fault_at(NameCause::WrongArity, leaf);
            }
            let arguments = rule_terms(alloc, definitions, arguments, signature, variables)?;
            Ok(Term::app(alloc, sym, arguments)?)
        }
        Meaning::Process(_, _) => fault_at(NameCause::WrongKind, leaf),
        Meaning::Local(_) | Meaning::Projection(_) | Meaning::Unknown => {
            if has_more(arguments) {
                return fault_at(NameCause::UnknownName, leaf);
            }
            Ok(variable(alloc, leaf.text.as_str(), variables)?)
        }
    }
}

/// Brackets round one term are nothing, and round several they are a tuple.
#[cycle(rule_term)]
#[tactic(auto, using(crate::proofs::Growth::for_brackets))]
fn bracketed(
    alloc: Global,
    definitions: &Definitions,
    leaf: &Leaf,
    members: &[Part],
    signature: &mut SignatureBuilder,
    variables: &mut Texts,
) -> Result<Term, NameRefusal>
    ensures found { Answers (λ t. t) (record { signature = signature.new; variables = variables.new }) result (tuple_in_rule (count_inner (parts_of members.now)) (rule_terms definitions.now (parts_of members.now)) (record { signature = signature.old; variables = variables.old }) leaf.now) }
    ensures grown { GrowsByTuples signature.old signature.new }
    ensures more { HasTextsOf variables.old variables.new }
{
    let count = count_inner(members);
    if count <= 1 {
        let members = rule_terms(alloc, definitions, members, signature, variables)?;
        return Ok(first_of(alloc, members)?);
    }
    if MOST_ARGUMENTS < count {
        return fault_at(NameCause::LargeArity, leaf);
    }
    let sym = tuple_symbol(alloc, signature, count as u32)?;
    let members = rule_terms(alloc, definitions, members, signature, variables)?;
    Ok(Term::app(alloc, sym, members)?)
}

/// The first of some terms.
fn first_of(alloc: Global, terms: Vec<Term>) -> Result<Term, NoMemory>
    ensures { IfOk result (λ t. t ≡ first_tree terms.items) }
{
    match terms.into_iter().next() {
        Some(first) => Ok(first),
        None => Term::var(alloc, 0),
    }
}

/// The terms in a row, between signs. A variable that is new is added to the variables, and the symbols of a tuple that is
/// new to the signature. The error is the first fault of their names, or out of memory.
#[cycle(rule_term)]
#[tactic(auto, using(crate::proofs::Rows::for_rows, crate::proofs::Growth::for_rows))]
pub fn rule_terms(
    alloc: Global,
    definitions: &Definitions,
    parts: &[Part],
    signature: &mut SignatureBuilder,
    variables: &mut Texts,
) -> Result<Vec<Term>, NameRefusal>
    ensures count { IfOk result (λ v. vec_len v ≡ count_inner (parts_of parts.now)) }
    ensures found { Answers (λ v. v.items) (record { signature = signature.new; variables = variables.new }) result (rule_terms definitions.now (parts_of parts.now) (record { signature = signature.old; variables = variables.old })) }
    ensures grown { GrowsByTuples signature.old signature.new }
    ensures more { HasTextsOf variables.old variables.new }
{
    let mut found = Vec::new(alloc);
    for part in parts {
        let Part::Inner(tree) = part else {
            continue;
        };
        let parts = tree.parts.as_slice();
        let term = rule_term(alloc, definitions, parts, signature, variables)?;
        found.push(term)?;
    }
    Ok(found)
}
