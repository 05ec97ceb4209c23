//! The form of a rule: what stands at its left root, below it and on its right side.
ghost use Rattle.std.specs.Prelude.{◌↔◌, map, IsTrue, MatchOption};
ghost use Rattle.dps_terms.specs.Tree.{IsSubterm, IsStrictSubterm};
ghost use Rattle.dps_terms.specs.Kinds.{IsClosed};
ghost use Rattle.dps_signature.specs.Kinds.{IsConstructorTerm};
ghost use Rattle.dps_terms.specs.Seen.{seen};
ghost use Rattle.dps_theory.specs.Theory.{HasDestructorRoot, HasConstructorArguments, IsBounded};
ghost use Rattle.dps_theory.specs.Held.{shape_of};
ghost use Rattle.dps_theory.specs.Checking.{HasForm, IsFault};

use crate::Rule;
use crate::shapes::{SymbolShape, has_shape};
use dps_signature::SymKind;
use dps_terms::{TermRef, TermView};

/// What is wrong with a rule by itself.
#[derive(Clone, Copy, Debug, PartialEq, Eq)]
pub enum FormFault {
    /// No destructor stands at the left root.
    RootNotDestructor,
    /// A destructor stands below the left root.
    ArgumentNotConstructor,
    /// A destructor stands on the right side.
    RightNotConstructor,
    /// The right side is neither a strict subterm of the left side nor ground.
    NotSubterm,
}

/// The first fault for which the rule is refused by itself.
pub(crate) fn form_fault(known: &[SymbolShape], rule: &Rule) -> Option<FormFault>
    ensures { MatchOption result (HasForm (map shape_of known.now) rule.now) (IsFault (map shape_of known.now) rule.now) }
{
    if !has_destructor_root(known, rule.left.whole()) {
        return Some(FormFault::RootNotDestructor);
    }
    if !has_constructor_arguments(known, rule.left.whole()) {
        return Some(FormFault::ArgumentNotConstructor);
    }
    if !is_constructor_term(known, rule.right.whole()) {
        return Some(FormFault::RightNotConstructor);
    }
    if !is_bounded(rule) {
        return Some(FormFault::NotSubterm);
    }
    None
}

/// Whether a destructor stands at the root.
fn has_destructor_root(known: &[SymbolShape], left: TermRef<'_>) -> bool
    ensures { IsTrue result ↔ HasDestructorRoot (map shape_of known.now) (seen left.entry) }
{
    match left.view() {
        TermView::App(sym) => has_shape(known, SymKind::Destructor, sym, left.arity()),
        _ => false,
    }
}

/// Whether the term is made of constructors alone, over any leaves.
#[cycle(constructors)]
fn is_constructor_term(known: &[SymbolShape], term: TermRef<'_>) -> bool
    ensures { IsTrue result ↔ IsConstructorTerm (map shape_of known.now) (seen term.entry) }
{
    match term.view() {
        TermView::App(sym) => {
            has_shape(known, SymKind::Constructor, sym, term.arity())
                && has_constructor_arguments(known, term)
        }
        _ => true,
    }
}

/// Whether constructors alone stand below the root.
#[cycle(constructors)]
fn has_constructor_arguments(known: &[SymbolShape], term: TermRef<'_>) -> bool
    ensures { IsTrue result ↔ HasConstructorArguments (map shape_of known.now) (seen term.entry) }
{
    for index in 0..term.arity() {
        if !is_constructor_term(known, term.argument(index)) {
            return false;
        }
    }
    true
}

/// Whether the right side is a strict subterm of the left side, or ground.
fn is_bounded(rule: &Rule) -> bool
    ensures { IsTrue result ↔ IsBounded rule.now }
{
    is_closed(rule.right.whole()) || is_strict_subterm(rule.right.whole(), rule.left.whole())
}

/// Whether no variable stands in the term.
fn is_closed(term: TermRef<'_>) -> bool
    ensures { IsTrue result ↔ IsClosed (seen term.entry) }
{
    if let TermView::Var(_) = term.view() {
        return false;
    }
    for index in 0..term.arity() {
        if !is_closed(term.argument(index)) {
            return false;
        }
    }
    true
}

/// Whether the part is a subterm of the term.
#[cycle(subterms)]
fn is_subterm(part: TermRef<'_>, term: TermRef<'_>) -> bool
    ensures { IsTrue result ↔ IsSubterm (seen part.entry) (seen term.entry) }
{
    part.equals(term) || is_strict_subterm(part, term)
}

/// Whether the part is a subterm of an argument.
#[cycle(subterms)]
fn is_strict_subterm(part: TermRef<'_>, term: TermRef<'_>) -> bool
    ensures { IsTrue result ↔ IsStrictSubterm (seen part.entry) (seen term.entry) }
{
    for index in 0..term.arity() {
        if is_subterm(part, term.argument(index)) {
            return true;
        }
    }
    false
}
