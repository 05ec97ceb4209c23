//! Rewrite rules.
ghost use Rattle.std.specs.Prelude.{◌≡◌, ◌≤◌, ◌-◌, false, vec_len, take, slice_get, unwrap_or, IfOk};
ghost use Rattle.std.specs.Option.{option_to_list};
ghost use Rattle.dps_terms.specs.Tree.{leaf, var, app, trees};
ghost use Rattle.dps_signature.specs.Names.{IsDeclaredText};
ghost use Rattle.dps_syntax.specs.Parts.{parts_of};
ghost use Rattle.dps_scopes.specs.Outcome.{Answers};
ghost use Rattle.dps_scopes.specs.Scopes.{begins_as_projection, declared_meaning};
ghost use Rattle.dps_names.specs.Rules.{rule, declared_root, root_as};

use crate::WrittenRule;
use dps_scopes::definitions::Definitions;
use dps_scopes::fault::{fault_at, place_of};
use dps_scopes::meaning::{Meaning, declared_meaning, is_reserved};
use dps_scopes::parts::count_inner;
use dps_scopes::rule_term::rule_terms;
use dps_scopes::signature::{SignatureBuilder, add_symbol};
use dps_scopes::term::MOST_ARGUMENTS;
use dps_scopes::texts::Texts;
use dps_scopes::{NameCause, NameRefusal};
use dps_signature::SymKind;
use dps_syntax::{Leaf, Part};
use dps_terms::{NoMemory, Sym, Term};
use dps_theory::Rule;
use std::alloc::{AllocError, Global};

/// Rule = id "(" Term { "," Term } ")" "->" Term: the last of its terms is the right side. Parts of another shape say
/// nothing.
pub(crate) fn read_rule(
    alloc: Global,
    definitions: &Definitions,
    parts: &[Part],
    signature: &mut SignatureBuilder,
) -> Result<Option<WrittenRule>, NameRefusal>
    ensures { Answers option_to_list signature.new result (rule definitions.now (parts_of parts.now) signature.old) }
{
    match parts {
        [Part::Token(leaf), rest @ ..] => {
            let count = count_inner(rest).saturating_sub(1);
            let sym = root(definitions, leaf, count, signature)?;
            let mut variables = Texts::new(alloc);
            let terms = rule_terms(alloc, definitions, rest, signature, &mut variables)?;
            Ok(Some(WrittenRule {
                rule: sides_of(alloc, sym, terms)?,
                place: place_of(leaf),
                variables: variables.into_list(),
            }))
        }
        _ => Ok(None),
    }
}

/// The function at the root of a left side, over so many arguments. Where it is not declared, it is declared here, as
/// a destructor. The error is its fault, or out of memory.
#[tactic(auto, using(dps_scopes::proofs::Undeclared::not_declared))]
fn root(
    definitions: &Definitions,
    leaf: &Leaf,
    count: usize,
    signature: &mut SignatureBuilder,
) -> Result<Sym, NameRefusal>
    ensures few { IfOk result (λ _. count ≤ 8) }
    ensures found { Answers (λ f. f) signature.new result (root_as leaf.now count signature.old (declared_meaning signature.old definitions.now leaf.now.text)) }
{
    match declared_meaning(definitions, &*signature, leaf.text.as_str()) {
        Meaning::Function(sym, arity) => {
            if count == arity as usize && count <= MOST_ARGUMENTS {
                Ok(sym)
            } else {
                fault_at(NameCause::WrongArity, leaf)
            }
        }
        Meaning::Name(_, _) => fault_at(NameCause::WrongArity, leaf),
        Meaning::Process(_, _) => fault_at(NameCause::WrongKind, leaf),
        Meaning::Local(_) | Meaning::Projection(_) | Meaning::Unknown => {
            declared_root(leaf, count, signature)
        }
    }
}

/// A root that its rule declares.
#[tactic(auto, using(dps_scopes::proofs::Identifiers::for_identifiers))]
fn declared_root(
    leaf: &Leaf,
    count: usize,
    signature: &mut SignatureBuilder,
) -> Result<Sym, NameRefusal>
    requires { begins_as_projection leaf.now.text ≡ false → ¬ IsDeclaredText signature.old leaf.now.text }
    ensures few { IfOk result (λ _. count ≤ 8) }
    ensures found { Answers (λ f. f) signature.new result (declared_root leaf.now count signature.old) }
{
    let text = leaf.text.as_str();
    if is_reserved(text) {
        return fault_at(NameCause::ReservedName, leaf);
    }
    if MOST_ARGUMENTS < count {
        return fault_at(NameCause::LargeArity, leaf);
    }
    add_symbol(signature, text, SymKind::Destructor, count as u32)
}

/// The symbol over all terms but the last, and the last.
fn sides_of(alloc: Global, sym: Sym, mut terms: Vec<Term>) -> Result<Rule, NoMemory>
    requires { vec_len terms ≤ 9 }
    ensures { IfOk result (λ r. r ≡ record { left = app sym (trees (take (vec_len terms - 1) terms.items)); right = unwrap_or (slice_get terms.items (vec_len terms - 1)) (leaf (var 0)) }) }
{
    let right = match terms.pop() {
        Some(last) => last,
        None => Term::var(alloc, 0)?,
    };
    Ok(Rule {
        left: Term::app(alloc, sym, terms)?,
        right,
    })
}
