//! Generic instances of patterns.
ghost use Rattle.std.specs.Prelude.{◌≡◌, IfOk};
ghost use Rattle.dps_terms.specs.Replace.{substitute, variables_to, rigid_names_to};
ghost use Rattle.dps_terms.specs.Seen.{seen};
ghost use Rattle.dps_static.specs.Generic.{generic, filled};
ghost use Rattle.dps_static.specs.Saturation.{own_name};

use dps_terms::{NoMemory, PublicName, Replacement, Subst, Term, TermLeaf, TermRef, TermStack};
use std::alloc::Global;

/// What is bound stands for each variable, and a rigid name where nothing is.
#[derive(Clone, Copy)]
struct Generic<'a> {
    by: &'a Subst,
}

impl<'a> Replacement for Generic<'a> {
    ghost becomes = { λ a. variables_to (generic a.by.now) };

    fn put(&self, leaf: TermLeaf, stack: &mut TermStack) -> Result<(), NoMemory> {
        match leaf {
            TermLeaf::Var(variable) => match self.by.get(variable) {
                Some(bound) => stack.push(bound.whole()),
                None => stack.push_leaf(TermLeaf::Rigid(variable)),
            },
            other => stack.push_leaf(other),
        }
    }
}

/// The pattern with what is bound in the place of each variable, and with a rigid name where nothing is.
pub(crate) fn instance(alloc: Global, by: &Subst, pattern: TermRef<'_>) -> Result<Term, NoMemory>
    ensures { IfOk result (λ t. t ≡ substitute (generic by.now) (seen pattern.entry)) }
{
    pattern.replaced(alloc, &Generic { by })
}

/// The attacker's name of the same number stands for each rigid name.
#[derive(Clone, Copy)]
struct OwnNames {}

impl Replacement for OwnNames {
    ghost becomes = { λ _. rigid_names_to own_name };

    fn put(&self, leaf: TermLeaf, stack: &mut TermStack) -> Result<(), NoMemory> {
        match leaf {
            TermLeaf::Rigid(number) => stack.push_leaf(TermLeaf::Public(PublicName::At(number))),
            other => stack.push_leaf(other),
        }
    }
}

/// The way with the attacker's name of the same number in the place of each rigid name.
pub(crate) fn named(alloc: Global, way: TermRef<'_>) -> Result<Term, NoMemory>
    ensures { IfOk result (λ t. t ≡ filled own_name (seen way.entry)) }
{
    way.replaced(alloc, &OwnNames {})
}
