//! Processes. Each function reads the parts of one production.
ghost use Rattle.std.specs.Prelude.{◌≡◌, is_some, IfSome};
ghost use Rattle.dps_syntax.specs.Parts.{parts_of};
ghost use Rattle.dps_scopes.specs.Body.{parallel, choice};
ghost use Rattle.dps_scopes.specs.Outcome.{Answers};
ghost use Rattle.dps_scopes.specs.Blocks.{blocks};
ghost use Rattle.dps_scopes.specs.Scopes.{meaning};
ghost use Rattle.dps_scopes.specs.Terms.{count_inner, terms};
ghost use Rattle.dps_names.specs.Processes.{number_of, is_number_of_copies, joined, call_as, channel, parallels, choices, process, grouped, repeated, restricted, received, sent, compared, matched, continued};

use crate::number::number_of;
use crate::pattern::pattern_in;
use crate::shape::{Start, begun, comparison, continuation, exchange, group, prefix, start_of};
use dps_scopes::definitions::Definitions;
use dps_scopes::fault::{fault_at, place_of};
use dps_scopes::meaning::{Meaning, meaning_of};
use dps_scopes::parts::count_inner;
use dps_scopes::scope::Scope;
use dps_scopes::signature::SignatureBuilder;
use dps_scopes::term::{identifier, term, terms};
use dps_scopes::{Body, Channel, NameCause, NameRefusal};
use dps_syntax::{Leaf, Part};
use dps_terms::NoMemory;
use std::alloc::{AllocError, Global};

/// The greatest number of copies.
const MOST_COPIES: u32 = 64;

/// Several processes side by side, or the only one of them.
pub(crate) fn joined_in_parallel(mut parts: Vec<Body>) -> Body
    ensures { result ≡ joined parallel parts.items }
{
    if parts.len() > 1 {
        return Body::parallel(parts);
    }
    match parts.pop() {
        Some(only) => only,
        None => Body::nil(),
    }
}

/// A choice between several processes, or the only one of them.
fn joined_by_choice(mut parts: Vec<Body>) -> Body
    ensures { result ≡ joined choice parts.items }
{
    if parts.len() > 1 {
        return Body::choice(parts);
    }
    match parts.pop() {
        Some(only) => only,
        None => Body::nil(),
    }
}

/// Par = Sum { "|" Sum }: the processes between the signs.
#[cycle(process)]
#[tactic(auto, using(dps_scopes::proofs::Rows::for_rows, crate::proofs::Chains::for_parallels))]
pub(crate) fn parallels(
    alloc: Global,
    definitions: &Definitions,
    scope: &Scope<'_>,
    parts: &[Part],
    signature: &mut SignatureBuilder,
) -> Result<Vec<Body>, NameRefusal>
    ensures { Answers (λ v. v.items) signature.new result (parallels definitions.now (blocks scope.now) (parts_of parts.now) signature.old) }
{
    let mut found = Vec::new(alloc);
    for part in parts {
        let Part::Inner(tree) = part else {
            continue;
        };
        let sum = choices(alloc, definitions, scope, tree.parts.as_slice(), signature)?;
        found.push(joined_by_choice(sum))?;
    }
    Ok(found)
}

/// Sum = Pre { "+" Pre }
#[cycle(process)]
#[tactic(auto, using(dps_scopes::proofs::Rows::for_rows, crate::proofs::Chains::for_choices))]
fn choices(
    alloc: Global,
    definitions: &Definitions,
    scope: &Scope<'_>,
    parts: &[Part],
    signature: &mut SignatureBuilder,
) -> Result<Vec<Body>, NameRefusal>
    ensures { Answers (λ v. v.items) signature.new result (choices definitions.now (blocks scope.now) (parts_of parts.now) signature.old) }
{
    let mut found = Vec::new(alloc);
    for part in parts {
        let Part::Inner(tree) = part else {
            continue;
        };
        let body = process(alloc, definitions, scope, tree.parts.as_slice(), signature)?;
        found.push(body)?;
    }
    Ok(found)
}

/// Pre, by the token that it begins with.
#[cycle(process)]
#[tactic(auto, using(crate::proofs::Processing::for_process))]
fn process(
    alloc: Global,
    definitions: &Definitions,
    scope: &Scope<'_>,
    parts: &[Part],
    signature: &mut SignatureBuilder,
) -> Result<Body, NameRefusal>
    ensures { Answers (λ b. b) signature.new result (process definitions.now (blocks scope.now) (parts_of parts.now) signature.old) }
{
    let Some((first, rest)) = begun(parts) else {
        return Ok(Body::nil());
    };
    match start_of(first) {
        Start::Call => called(alloc, definitions, scope, first, rest, signature),
        Start::Group => grouped(alloc, definitions, scope, rest, signature),
        Start::Copies => repeated(alloc, definitions, scope, rest, signature),
        Start::Name => restricted(alloc, definitions, scope, rest, signature),
        Start::Input => received(alloc, definitions, scope, rest, signature),
        Start::Output => sent(alloc, definitions, scope, rest, signature),
        Start::Test => compared(alloc, definitions, scope, rest, signature),
        Start::Match => matched(alloc, definitions, scope, rest, signature),
        Start::Nothing => Ok(Body::nil()),
    }
}

/// id [ "(" Term { "," Term } ")" ]: a call of a defined process.
fn called(
    alloc: Global,
    definitions: &Definitions,
    scope: &Scope<'_>,
    leaf: &Leaf,
    arguments: &[Part],
    signature: &mut SignatureBuilder,
) -> Result<Body, NameRefusal>
    ensures { Answers (λ b. b) signature.new result (call_as leaf.now (count_inner (parts_of arguments.now)) (terms definitions.now (blocks scope.now) (parts_of arguments.now) signature.old) (meaning signature.old definitions.now (blocks scope.now) leaf.now.text)) }
{
    match meaning_of(definitions, scope, &*signature, leaf.text.as_str())? {
        Meaning::Process(number, parameters) => {
            if count_inner(arguments) != parameters {
                return fault_at(NameCause::WrongArity, leaf);
            }
            let arguments = terms(alloc, definitions, scope, arguments, signature)?;
            Ok(Body::call(number, arguments))
        }
        Meaning::Unknown => fault_at(NameCause::UnknownName, leaf),
        Meaning::Local(_)
        | Meaning::Name(_, _)
        | Meaning::Function(_, _)
        | Meaning::Projection(_) => fault_at(NameCause::WrongKind, leaf),
    }
}

/// "(" Par ")"
#[cycle(process)]
#[tactic(auto, using(crate::proofs::Processing::for_grouped))]
fn grouped(
    alloc: Global,
    definitions: &Definitions,
    scope: &Scope<'_>,
    parts: &[Part],
    signature: &mut SignatureBuilder,
) -> Result<Body, NameRefusal>
    ensures { Answers (λ b. b) signature.new result (grouped definitions.now (blocks scope.now) (parts_of parts.now) signature.old) }
{
    match group(parts) {
        None => Ok(Body::nil()),
        Some(inside) => {
            let found = parallels(alloc, definitions, scope, inside, signature)?;
            Ok(joined_in_parallel(found))
        }
    }
}

/// "!" "^" number Pre
#[cycle(process)]
#[tactic(auto, using(crate::proofs::Processing::for_repeated))]
fn repeated(
    alloc: Global,
    definitions: &Definitions,
    scope: &Scope<'_>,
    parts: &[Part],
    signature: &mut SignatureBuilder,
) -> Result<Body, NameRefusal>
    ensures { Answers (λ b. b) signature.new result (repeated definitions.now (blocks scope.now) (parts_of parts.now) signature.old) }
{
    match prefix(parts) {
        None => Ok(Body::nil()),
        Some((_, number, inside)) => {
            let Some(count) = copies_of(number) else {
                return fault_at(NameCause::BadCopies, number);
            };
            let body = process(alloc, definitions, scope, inside, signature)?;
            Ok(Body::copies(alloc, count, body)?)
        }
    }
}

/// The number of copies, which is 1 to 64.
fn copies_of(number: &Leaf) -> Option<u32>
    ensures some { is_some result ≡ is_number_of_copies number.now }
    ensures value { IfSome result (λ n. n ≡ number_of number.now) }
{
    let count = number_of(number);
    if 1 <= count && count <= MOST_COPIES {
        Some(count)
    } else {
        None
    }
}

/// "new" id ";" Pre
#[cycle(process)]
#[tactic(auto, using(crate::proofs::Processing::for_restricted))]
fn restricted(
    alloc: Global,
    definitions: &Definitions,
    scope: &Scope<'_>,
    parts: &[Part],
    signature: &mut SignatureBuilder,
) -> Result<Body, NameRefusal>
    ensures { Answers (λ b. b) signature.new result (restricted definitions.now (blocks scope.now) (parts_of parts.now) signature.old) }
{
    match prefix(parts) {
        None => Ok(Body::nil()),
        Some((name, _, inside)) => {
            let inner = Scope::Fresh(name.text.as_str(), &*scope);
            let body = process(alloc, definitions, &inner, inside, signature)?;
            Ok(Body::fresh(alloc, body)?)
        }
    }
}

/// What stands in a channel's place.
fn channel(
    alloc: Global,
    definitions: &Definitions,
    scope: &Scope<'_>,
    leaf: &Leaf,
    signature: &mut SignatureBuilder,
) -> Result<Channel, NameRefusal>
    ensures { Answers (λ c. c) signature.new result (channel definitions.now (blocks scope.now) leaf.now signature.old) }
{
    let written = identifier(alloc, definitions, scope, leaf, signature)?;
    Ok(Channel {
        tree: written.tree,
        place: place_of(leaf),
    })
}

/// "in" "(" id "," Pattern ")" [ ";" Pre ]
#[cycle(process)]
#[tactic(auto, using(crate::proofs::Processing::for_received))]
fn received(
    alloc: Global,
    definitions: &Definitions,
    scope: &Scope<'_>,
    parts: &[Part],
    signature: &mut SignatureBuilder,
) -> Result<Body, NameRefusal>
    ensures { Answers (λ b. b) signature.new result (received definitions.now (blocks scope.now) (parts_of parts.now) signature.old) }
{
    match exchange(parts) {
        None => Ok(Body::nil()),
        Some((name, inside, rest)) => {
            let channel = channel(alloc, definitions, scope, name, signature)?;
            let found = pattern_in(alloc, definitions, scope, inside, signature)?;
            let inner = Scope::Block(&found.names, &*scope);
            let then = continued(alloc, definitions, &inner, rest, signature)?;
            Ok(Body::input(alloc, channel, found.steps, then)?)
        }
    }
}

/// "out" "(" id "," Term ")" [ ";" Pre ]
#[cycle(process)]
#[tactic(auto, using(crate::proofs::Processing::for_sent))]
fn sent(
    alloc: Global,
    definitions: &Definitions,
    scope: &Scope<'_>,
    parts: &[Part],
    signature: &mut SignatureBuilder,
) -> Result<Body, NameRefusal>
    ensures { Answers (λ b. b) signature.new result (sent definitions.now (blocks scope.now) (parts_of parts.now) signature.old) }
{
    match exchange(parts) {
        None => Ok(Body::nil()),
        Some((name, inside, rest)) => {
            let channel = channel(alloc, definitions, scope, name, signature)?;
            let sent = term(alloc, definitions, scope, inside, signature)?;
            let then = continued(alloc, definitions, scope, rest, signature)?;
            Ok(Body::output(alloc, channel, sent, then)?)
        }
    }
}

/// "if" Term "=" Term "then" Pre [ "else" Pre ]
#[cycle(process)]
#[tactic(auto, using(crate::proofs::Processing::for_compared))]
fn compared(
    alloc: Global,
    definitions: &Definitions,
    scope: &Scope<'_>,
    parts: &[Part],
    signature: &mut SignatureBuilder,
) -> Result<Body, NameRefusal>
    ensures { Answers (λ b. b) signature.new result (compared definitions.now (blocks scope.now) (parts_of parts.now) signature.old) }
{
    match comparison(parts) {
        None => Ok(Body::nil()),
        Some((left, right, chosen, rest)) => {
            let left = term(alloc, definitions, scope, left, signature)?;
            let right = term(alloc, definitions, scope, right, signature)?;
            let then = process(alloc, definitions, scope, chosen, signature)?;
            let other = continued(alloc, definitions, scope, rest, signature)?;
            Ok(Body::conditional(alloc, left, right, then, other)?)
        }
    }
}

/// "let" Pattern "=" Term "in" Pre [ "else" Pre ]. The other branch does not see what the pattern names.
#[cycle(process)]
#[tactic(auto, using(crate::proofs::Processing::for_matched))]
fn matched(
    alloc: Global,
    definitions: &Definitions,
    scope: &Scope<'_>,
    parts: &[Part],
    signature: &mut SignatureBuilder,
) -> Result<Body, NameRefusal>
    ensures { Answers (λ b. b) signature.new result (matched definitions.now (blocks scope.now) (parts_of parts.now) signature.old) }
{
    match comparison(parts) {
        None => Ok(Body::nil()),
        Some((inside, right, chosen, rest)) => {
            let found = pattern_in(alloc, definitions, scope, inside, signature)?;
            let term = term(alloc, definitions, scope, right, signature)?;
            let inner = Scope::Block(&found.names, &*scope);
            let then = process(alloc, definitions, &inner, chosen, signature)?;
            let other = continued(alloc, definitions, scope, rest, signature)?;
            Ok(Body::bind(alloc, term, found.steps, then, other)?)
        }
    }
}

/// What follows `;` or `else`, or `0` where nothing does.
#[cycle(process)]
#[tactic(auto, using(crate::proofs::Processing::for_continued))]
fn continued(
    alloc: Global,
    definitions: &Definitions,
    scope: &Scope<'_>,
    parts: &[Part],
    signature: &mut SignatureBuilder,
) -> Result<Body, NameRefusal>
    ensures { Answers (λ b. b) signature.new result (continued definitions.now (blocks scope.now) (parts_of parts.now) signature.old) }
{
    match continuation(parts) {
        Some(inside) => process(alloc, definitions, scope, inside, signature),
        None => Ok(Body::nil()),
    }
}
