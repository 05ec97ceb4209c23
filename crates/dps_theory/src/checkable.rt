//! Whether rules may be checked.
ghost use Rattle.std.specs.Prelude.{◌≡◌, ◌≢◌, ◌≤◌, ◌↔◌, map, All, IfOk, IsTrue};
ghost use Rattle.dps_terms.specs.Kinds.{IsBuiltOf, AnySymbol};
ghost use Rattle.dps_terms.specs.Seen.{seen};
ghost use Rattle.dps_signature.specs.Signature.{shapes};
ghost use Rattle.dps_theory.specs.Checkable.{IsSmallRuleLeaf, IsSmallRuleView, IsSide, IsCheckable, HasProjectionsOf, HasDestructors, HasDestructor};
ghost use Rattle.dps_theory.specs.Conditions.{AreCheckable};
ghost use Rattle.dps_theory.specs.Held.{shape_of};
ghost use Rattle.dps_theory.specs.Judging.{root_of};
ghost use Rattle.dps_theory.specs.Projections.{HasProjections};

use crate::Rule;
use crate::projections::projections;
use crate::shapes::{SymbolShape, has_shape, shapes_of};
use dps_signature::{Signature, SymKind, is_over, projection_text, tuple_text};
use dps_terms::{NoMemory, PublicName, Term, TermRef, TermView};
use std::alloc::Global;

/// Whether rules meet all that `Theory::check` asks of them before it looks at them: there are fewer than 2^24, over the
/// signature, of declared names and variables with numbers below 2^32, none with a projection at its left root; and the
/// projections of the tuples that have a symbol are there. It fails only out of memory.
pub fn are_checkable(alloc: Global, signature: &Signature, rules: &[Rule]) -> Result<bool, NoMemory>
    ensures { IfOk result (λ b. IsTrue b ↔ AreCheckable signature.now rules.now) }
{
    if rules.len() >= 1 << 24 {
        return Ok(false);
    }
    if !has_projections(alloc, signature)? {
        return Ok(false);
    }
    let known = projections(alloc, signature)?;
    let all = all_are_checkable(signature, &known, rules);
    Ok(all)
}

/// Whether each rule meets what is asked of a rule.
fn all_are_checkable(signature: &Signature, projections: &[Rule], rules: &[Rule]) -> bool
    ensures { IsTrue result ↔ All (IsCheckable signature.now projections.now) rules.now }
{
    rules
        .iter()
        .all(|rule| is_checkable(signature, projections, rule))
}

/// Whether both sides of the rule are over the signature, of declared names and variables with small numbers, and no
/// projection stands at its left root.
fn is_checkable(signature: &Signature, projections: &[Rule], rule: &Rule) -> bool
    ensures { IsTrue result ↔ IsCheckable signature.now projections.now rule.now }
{
    if !is_side(signature, &rule.left) {
        return false;
    }
    if !is_side(signature, &rule.right) {
        return false;
    }
    has_another_root(projections, rule)
}

/// Whether no projection has the left root of the rule.
fn has_another_root(projections: &[Rule], rule: &Rule) -> bool
    ensures { IsTrue result ↔ All (λ p. root_of p.left ≢ root_of rule.now.left) projections.now }
{
    projections
        .iter()
        .all(|projection| differ_at_root(projection, rule))
}

/// Whether the left roots of the two rules differ.
fn differ_at_root(projection: &Rule, rule: &Rule) -> bool
    ensures { IsTrue result ↔ (root_of projection.now.left ≢ root_of rule.now.left) }
{
    match (projection.left.whole().view(), rule.left.whole().view()) {
        (TermView::App(f), TermView::App(g)) => f != g,
        (TermView::App(_), _) => true,
        (_, TermView::App(_)) => true,
        _ => false,
    }
}

/// Whether the term is over the signature, of declared names and variables with small numbers.
fn is_side(signature: &Signature, term: &Term) -> bool
    ensures { IsTrue result ↔ IsSide signature.now term.now }
{
    is_over(term, signature) && has_rule_leaves(term.whole())
}

/// Whether the leaves are declared names and variables with numbers below 2^32.
fn has_rule_leaves(term: TermRef<'_>) -> bool
    ensures { IsTrue result ↔ IsBuiltOf IsSmallRuleLeaf AnySymbol (seen term.entry) }
{
    if !is_rule_view(term.view()) {
        return false;
    }
    for index in 0..term.arity() {
        if !has_rule_leaves(term.argument(index)) {
            return false;
        }
    }
    true
}

/// Whether a symbol, a declared name or a variable with a number below 2^32 is shown.
fn is_rule_view(view: TermView) -> bool
    ensures { IsTrue result ↔ IsSmallRuleView view }
{
    match view {
        TermView::App(_) => true,
        TermView::Public(PublicName::Declared(_)) => true,
        TermView::Public(PublicName::At(_)) => false,
        TermView::Var(number) => number < 1 << 32,
        TermView::Private(_) => false,
        TermView::Ax(_) => false,
        TermView::Entry(_) => false,
        TermView::Rigid(_) => false,
    }
}

/// Whether each symbol of tuples is a constructor of its arity, with its projections.
fn has_projections(alloc: Global, signature: &Signature) -> Result<bool, NoMemory>
    ensures { IfOk result (λ b. IsTrue b ↔ HasProjections signature.now) }
{
    let known = shapes_of(alloc, signature)?;
    for length in 2..9 {
        if !has_projections_of(alloc, &known, signature, length)? {
            return Ok(false);
        }
    }
    Ok(true)
}

/// The same for the tuples of a length.
fn has_projections_of(
    alloc: Global,
    known: &[SymbolShape],
    signature: &Signature,
    length: u32,
) -> Result<bool, NoMemory>
    requires known { map shape_of known.now ≡ shapes signature.now }
    requires low { 2 ≤ length }
    requires high { length ≤ 8 }
    ensures { IfOk result (λ b. IsTrue b ↔ HasProjectionsOf signature.now length) }
{
    match signature.symbol(tuple_text(length)) {
        Some(tuple) => {
            if !has_shape(known, SymKind::Constructor, tuple, length) {
                return Ok(false);
            }
            has_destructors(alloc, known, signature, length)
        }
        None => Ok(true),
    }
}

/// Whether the projections of the tuples of a length are there.
fn has_destructors(
    alloc: Global,
    known: &[SymbolShape],
    signature: &Signature,
    length: u32,
) -> Result<bool, NoMemory>
    requires known { map shape_of known.now ≡ shapes signature.now }
    requires high { length ≤ 8 }
    ensures { IfOk result (λ b. IsTrue b ↔ HasDestructors signature.now length) }
{
    for place in 1..length + 1 {
        if !has_destructor(alloc, known, signature, length, place)? {
            return Ok(false);
        }
    }
    Ok(true)
}

/// Whether the projection to a place is there, as a destructor of arity 1.
fn has_destructor(
    alloc: Global,
    known: &[SymbolShape],
    signature: &Signature,
    length: u32,
    place: u32,
) -> Result<bool, NoMemory>
    requires known { map shape_of known.now ≡ shapes signature.now }
    requires low { 1 ≤ place }
    requires high { place ≤ length }
    requires few { length ≤ 8 }
    ensures { IfOk result (λ b. IsTrue b ↔ HasDestructor signature.now length place) }
{
    let text = projection_text(alloc, place, length)?;
    match signature.symbol(&text) {
        Some(projection) => Ok(has_shape(known, SymKind::Destructor, projection, 1)),
        None => Ok(false),
    }
}
