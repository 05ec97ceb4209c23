//! Patterns. Each function reads the parts of one production.
ghost use Rattle.std.specs.Prelude.{◌≡◌, ◌≤◌, [], IfOk, OnOk};
ghost use Rattle.dps_signature.specs.Signature.{Signature};
ghost use Rattle.dps_syntax.specs.Parts.{parts_of};
ghost use Rattle.dps_scopes.specs.Outcome.{Answers};
ghost use Rattle.dps_scopes.specs.Blocks.{blocks};
ghost use Rattle.dps_scopes.specs.Terms.{count_inner};
ghost use Rattle.dps_names.specs.Processes.{unnamed, with_step, next_local, variable, tuple_pattern, pattern, tested, members, pattern_in};

use dps_lex::TokenKind;
use dps_scopes::definitions::Definitions;
use dps_scopes::fault::fault_at;
use dps_scopes::parts::{count_inner, is_kind};
use dps_scopes::scope::{Scope, sum};
use dps_scopes::signature::{SignatureBuilder, projection_symbol, tuple_symbol};
use dps_scopes::term::{MOST_ARGUMENTS, term};
use dps_scopes::texts::Texts;
use dps_scopes::{NameCause, NameRefusal, Step};
use dps_syntax::{Leaf, Part};
use dps_terms::{NoMemory, Sym};
use std::alloc::{AllocError, Global};
use std::marker::Model;

/// What a pattern says: steps, in order, and the texts of the locals that it makes.
#[derive(Drop)]
pub(crate) struct Pattern {
    pub(crate) steps: Vec<Step>,
    pub(crate) names: Texts,
}

impl Model for Pattern {
    ghost use Rattle.dps_names.specs.Processes.{Pattern};
    ghost use Rattle.dps_names.specs.StoredPattern.{pattern_code};

    ghost Value = { Pattern };

    ghost coded = { pattern_code };

    ghost view = { λ a. record { steps = a.steps.items; names = a.names } };
}

impl Pattern {
    /// A pattern that says nothing. It takes no memory.
    fn new(alloc: Global) -> Pattern
        ensures { result ≡ record { steps = []; names = [] } }
    {
        Pattern {
            steps: Vec::new(alloc),
            names: Texts::new(alloc),
        }
    }

    /// The number of the next local, behind those outside the pattern.
    fn next_local(&self, outside: &Scope<'_>) -> Result<usize, NoMemory>
        ensures { IfOk result (λ n. n ≡ next_local (blocks outside.now) self.now) }
    {
        sum(outside.count()?, self.names.count())
    }

    /// One more local, without a text.
    fn push_unnamed(&mut self, alloc: Global) -> Result<(), NoMemory>
        ensures { OnOk result (self.new ≡ unnamed self.old) }
    {
        self.names.push(alloc, "")
    }

    fn push_step(&mut self, step: Step) -> Result<(), NoMemory>
        ensures { OnOk result (self.new ≡ with_step self.old step) }
    {
        self.steps.push(step)?;
        Ok(())
    }
}

/// A tuple that a pattern takes apart: its symbol, and the local that it is.
#[derive(Clone, Copy)]
struct TupleLocal {
    symbol: Sym,
    local: usize,
}

/// The pattern that stands first in the parts.
pub(crate) fn pattern_in(
    alloc: Global,
    definitions: &Definitions,
    scope: &Scope<'_>,
    parts: &[Part],
    signature: &mut SignatureBuilder,
) -> Result<Pattern, NameRefusal>
    ensures { Answers (λ p. p) signature.new result (pattern_in definitions.now (blocks scope.now) (parts_of parts.now) signature.old) }
{
    let mut found = Pattern::new(alloc);
    read_pattern(alloc, definitions, scope, parts, &mut found, signature)?;
    Ok(found)
}

/// Pattern = id | "=" Term | "(" Pattern "," Pattern { "," Pattern } ")"
#[cycle(pattern)]
fn read_pattern(
    alloc: Global,
    definitions: &Definitions,
    outside: &Scope<'_>,
    parts: &[Part],
    so_far: &mut Pattern,
    signature: &mut SignatureBuilder,
) -> Result<(), NameRefusal>
    ensures { Answers (λ _. so_far.new) signature.new result (pattern definitions.now (blocks outside.now) (parts_of parts.now) so_far.old signature.old) }
{
    match parts {
        [Part::Token(leaf), rest @ ..] => {
            if is_kind(leaf, TokenKind::Identifier) {
                variable(alloc, leaf, so_far)
            } else if is_kind(leaf, TokenKind::Equals) {
                tested(alloc, definitions, outside, rest, so_far, signature)
            } else {
                tuple(alloc, definitions, outside, leaf, rest, so_far, signature)
            }
        }
        _ => Ok(()),
    }
}

/// A variable. The pattern has not named it before.
fn variable(alloc: Global, leaf: &Leaf, so_far: &mut Pattern) -> Result<(), NameRefusal>
    ensures { (s : Signature) → Answers (λ _. so_far.new) s result (variable leaf.now so_far.old s) }
{
    let text = leaf.text.as_str();
    if so_far.names.find(text).is_some() {
        return fault_at(NameCause::NameTwice, leaf);
    }
    Ok(so_far.names.push(alloc, text)?)
}

/// "=" Term: the value is the term. Its names are looked up outside the pattern.
fn tested(
    alloc: Global,
    definitions: &Definitions,
    outside: &Scope<'_>,
    parts: &[Part],
    so_far: &mut Pattern,
    signature: &mut SignatureBuilder,
) -> Result<(), NameRefusal>
    ensures { Answers (λ _. so_far.new) signature.new result (tested definitions.now (blocks outside.now) (parts_of parts.now) so_far.old signature.old) }
{
    let written = term(alloc, definitions, outside, parts, signature)?;
    let local = so_far.next_local(outside)?;
    so_far.push_unnamed(alloc)?;
    Ok(so_far.push_step(Step::Test(local, written))?)
}

/// A tuple of patterns.
#[cycle(pattern)]
fn tuple(
    alloc: Global,
    definitions: &Definitions,
    outside: &Scope<'_>,
    leaf: &Leaf,
    parts: &[Part],
    so_far: &mut Pattern,
    signature: &mut SignatureBuilder,
) -> Result<(), NameRefusal>
    ensures { Answers (λ _. so_far.new) signature.new result (tuple_pattern leaf.now (count_inner (parts_of parts.now)) (λ symbol after. members definitions.now (blocks outside.now) (parts_of parts.now) symbol (next_local (blocks outside.now) so_far.old) 1 (unnamed so_far.old) after) signature.old) }
{
    let count = count_inner(parts);
    if count < 2 || MOST_ARGUMENTS < count {
        return fault_at(NameCause::LargeArity, leaf);
    }
    let symbol = tuple_symbol(alloc, signature, count as u32)?;
    let local = so_far.next_local(outside)?;
    so_far.push_unnamed(alloc)?;
    let tuple = TupleLocal { symbol, local };
    members(alloc, definitions, outside, parts, tuple, so_far, signature)
}

/// The members of a tuple.
#[cycle(pattern)]
#[tactic(auto, using(crate::proofs::Members::for_members))]
fn members(
    alloc: Global,
    definitions: &Definitions,
    outside: &Scope<'_>,
    parts: &[Part],
    tuple: TupleLocal,
    so_far: &mut Pattern,
    signature: &mut SignatureBuilder,
) -> Result<(), NameRefusal>
    requires { count_inner (parts_of parts.now) ≤ 8 }
    ensures { Answers (λ _. so_far.new) signature.new result (members definitions.now (blocks outside.now) (parts_of parts.now) tuple.symbol.number tuple.local 1 so_far.old signature.old) }
{
    let mut index = 1;
    for part in parts {
        let Part::Inner(tree) = part else {
            continue;
        };
        let projection = projection_symbol(tuple.symbol, index)?;
        so_far.push_step(Step::Project(projection, tuple.local))?;
        let parts = tree.parts.as_slice();
        read_pattern(alloc, definitions, outside, parts, so_far, signature)?;
        index += 1;
    }
    Ok(())
}
