//! The rules of the projections of tuples.
ghost use Rattle.std.specs.Prelude.{◌≡◌, ◌≤◌, ◌+◌, ◌++◌, ◌∷◌, [], ℕ, map, Some, IfOk, OnOk, string_bytes};
ghost use Rattle.std.specs.List.{range_with_len};
ghost use Rattle.dps_signature.specs.Names.{projection_name, symbol_named};
ghost use Rattle.dps_theory.specs.Projections.{projection_rule, projections as projection_rules, projections_of, tuple_of, HasProjections};

use crate::Rule;
use dps_signature::{Signature, projection_text, tuple_text};
use dps_terms::{NoMemory, Sym, Term};
use std::alloc::Global;

/// The rules `proj_i_n((x1,..,xn)) -> xi`, for each n with a symbol of tuples, by n and i.
pub(crate) fn projections(alloc: Global, signature: &Signature) -> Result<Vec<Rule>, NoMemory>
    requires { HasProjections signature.now }
    ensures { IfOk result (λ v. v.items ≡ projection_rules signature.now) }
{
    let mut rules = Vec::new(alloc);
    for length in 2..9 {
        push_projections(alloc, signature, &mut rules, length)?;
    }
    Ok(rules)
}

/// Adds the projections of the tuples of a length, where these have a symbol.
fn push_projections(
    alloc: Global,
    signature: &Signature,
    rules: &mut Vec<Rule>,
    length: u32,
) -> Result<(), NoMemory>
    requires there { HasProjections signature.now }
    requires low { 2 ≤ length }
    requires high { length ≤ 8 }
    ensures { OnOk result (rules.new.items ≡ rules.old.items ++ projections_of signature.now length) }
{
    match signature.symbol(tuple_text(length)) {
        Some(tuple) => push_rules(alloc, signature, rules, tuple, length),
        None => Ok(()),
    }
}

/// Adds the projections of the tuples of a length, which have this symbol.
fn push_rules(
    alloc: Global,
    signature: &Signature,
    rules: &mut Vec<Rule>,
    tuple: Sym,
    length: u32,
) -> Result<(), NoMemory>
    requires few { length ≤ 8 }
    requires there { (i : ℕ) → 1 ≤ i → i ≤ length → (g : ℕ) × (symbol_named signature.now (projection_name i length) ≡ Some g) }
    ensures { OnOk result (rules.new.items ≡ rules.old.items ++ map (projection_rule signature.now tuple length) (range_with_len 1 length)) }
{
    for place in 1..length + 1 {
        let rule = projection(alloc, signature, tuple, length, place)?;
        rules.push(rule)?;
    }
    Ok(())
}

/// The rule of the projection of the tuples of a length to a place.
fn projection(
    alloc: Global,
    signature: &Signature,
    tuple: Sym,
    length: u32,
    place: u32,
) -> Result<Rule, NoMemory>
    requires few { length ≤ 8 }
    requires low { 1 ≤ place }
    requires high { place ≤ length }
    requires there { (g : ℕ) × (symbol_named signature.now (projection_name place length) ≡ Some g) }
    ensures { IfOk result (λ r. r ≡ projection_rule signature.now tuple length place) }
{
    let name = projection_text(alloc, place, length)?;
    let Some(destructor) = signature.symbol(&name) else {
        unreachable!()
    };
    let tuples = vec![in alloc; tuple_term(alloc, tuple, length)?]?;
    let left = Term::app(alloc, destructor, tuples)?;
    let right = Term::var(alloc, place as u64)?;
    Ok(Rule { left, right })
}

/// `(x1,..,xn)`.
fn tuple_term(alloc: Global, tuple: Sym, length: u32) -> Result<Term, NoMemory>
    requires { length ≤ 8 }
    ensures { IfOk result (λ t. t ≡ tuple_of tuple length) }
{
    let mut variables = Vec::new(alloc);
    for number in 1..length + 1 {
        variables.push(Term::var(alloc, number as u64)?)?;
    }
    Term::app(alloc, tuple, variables)
}
