//! Terms with what their locals stand for, built within the limits of a side.
ghost use Rattle.std.specs.Prelude.{◌≡◌, ◌⊎◌, ◌+◌, ◌++◌, ◌∷◌, [], map, IfOk, OnOk};
ghost use Rattle.dps_terms.specs.Tree.{Tree, app, leaf as leaf_tree, trees};
ghost use Rattle.dps_terms.specs.Leaves.{leaf_seen};
ghost use Rattle.dps_terms.specs.Seen.{seen};
ghost use Rattle.dps_terms.specs.Views.{view_of, arguments};
ghost use Rattle.dps_elab.specs.Expansion.{value_at, tree_in, privates_of, declared_name};
ghost use Rattle.dps_elab.specs.Locals.{in_frame, values};
ghost use Rattle.dps_elab.specs.Writing.{IsBuiltWithin, IsPut, IsTooLargeTerm, ArePut, AreTooLarge};

use crate::local::{Frame, Local, local_at};
use crate::{PrivateUse, Stop};
use dps_scopes::Use;
use dps_terms::{NoMemory, PublicName, Sym, Term, TermLeaf, TermRef, TermStack, TermView};
use std::alloc::{AllocError, Global};

/// Takes one node from those that are left, and says how many may be on a path behind it.
pub(crate) fn take_node(nodes_left: &mut u32, depth: u32) -> Result<u32, Stop>
    ensures ok { IfOk result (λ left. (left + 1 ≡ depth) × (nodes_left.new + 1 ≡ nodes_left.old)) }
    ensures large { result ≡ Err Stop.TooLarge → (nodes_left.old ≡ 0) ⊎ (depth ≡ 0) }
{
    if *nodes_left == 0 {
        return Err(Stop::TooLarge);
    }
    if depth == 0 {
        return Err(Stop::TooLarge);
    }
    *nodes_left -= 1;
    Ok(depth - 1)
}

/// The term with what the locals of the frame stand for. Its nodes are taken from those that are left, and no path may
/// have more than `depth` of them.
pub(crate) fn build(
    alloc: Global,
    stack: &[Local<'_>],
    frame: Frame,
    term: TermRef<'_>,
    nodes_left: &mut u32,
    depth: u32,
) -> Result<Term, Stop>
    ensures ok { IfOk result (λ t. IsBuiltWithin nodes_left.old nodes_left.new depth (tree_in (in_frame (values stack.now) frame) (seen term.entry)) t) }
    ensures large { result ≡ Err Stop.TooLarge → IsTooLargeTerm nodes_left.old depth (tree_in (in_frame (values stack.now) frame) (seen term.entry)) }
{
    let mut built = TermStack::empty(alloc);
    put_term(stack, frame, term, nodes_left, depth, &mut built)?;
    Ok(built.into_term())
}

/// What the local with this number stands for.
pub(crate) fn build_local(
    alloc: Global,
    stack: &[Local<'_>],
    frame: Frame,
    number: usize,
    nodes_left: &mut u32,
    depth: u32,
) -> Result<Term, Stop>
    ensures ok { IfOk result (λ t. IsBuiltWithin nodes_left.old nodes_left.new depth ((value_at (in_frame (values stack.now) frame) number).tree) t) }
    ensures large { result ≡ Err Stop.TooLarge → IsTooLargeTerm nodes_left.old depth ((value_at (in_frame (values stack.now) frame) number).tree) }
{
    let mut built = TermStack::empty(alloc);
    put_local(stack, frame, number, nodes_left, depth, &mut built)?;
    Ok(built.into_term())
}

/// The projection of what the local with this number stands for.
pub(crate) fn build_projection(
    alloc: Global,
    stack: &[Local<'_>],
    frame: Frame,
    projection: Sym,
    number: usize,
    nodes_left: &mut u32,
    depth: u32,
) -> Result<Term, Stop>
    ensures ok { IfOk result (λ t. IsBuiltWithin nodes_left.old nodes_left.new depth (app projection (trees ((value_at (in_frame (values stack.now) frame) number).tree ∷ []))) t) }
    ensures large { result ≡ Err Stop.TooLarge → IsTooLargeTerm nodes_left.old depth (app projection (trees ((value_at (in_frame (values stack.now) frame) number).tree ∷ []))) }
{
    let depth = take_node(nodes_left, depth)?;
    let mut built = TermStack::empty(alloc);
    put_local(stack, frame, number, nodes_left, depth, &mut built)?;
    built.apply(projection, 1)?;
    Ok(built.into_term())
}

/// Puts the term with what the locals of the frame stand for in front. Its nodes are taken from those that are left, and
/// no path may have more than `depth` of them.
#[cycle(build)]
fn put_term(
    stack: &[Local<'_>],
    frame: Frame,
    term: TermRef<'_>,
    nodes_left: &mut u32,
    depth: u32,
    built: &mut TermStack,
) -> Result<(), Stop>
    ensures ok { OnOk result (IsPut nodes_left.old nodes_left.new depth (tree_in (in_frame (values stack.now) frame) (seen term.entry)) built.old built.new) }
    ensures large { result ≡ Err Stop.TooLarge → IsTooLargeTerm nodes_left.old depth (tree_in (in_frame (values stack.now) frame) (seen term.entry)) }
{
    match term.view() {
        TermView::Var(number) => put_local(stack, frame, number as usize, nodes_left, depth, built),
        TermView::App(sym) => {
            let depth = take_node(nodes_left, depth)?;
            put_arguments(stack, frame, term, nodes_left, depth, built)?;
            built.apply(sym, term.arity())?;
            Ok(())
        }
        _ => {
            take_node(nodes_left, depth)?;
            built.push(term)?;
            Ok(())
        }
    }
}

/// Puts the arguments of the term's root in front, the last one first.
#[cycle(build)]
fn put_arguments(
    stack: &[Local<'_>],
    frame: Frame,
    term: TermRef<'_>,
    nodes_left: &mut u32,
    depth: u32,
    built: &mut TermStack,
) -> Result<(), Stop>
    ensures ok { OnOk result (ArePut nodes_left.old nodes_left.new depth (map (tree_in (in_frame (values stack.now) frame)) (arguments (seen term.entry))) built.old built.new) }
    ensures large { result ≡ Err Stop.TooLarge → AreTooLarge nodes_left.old depth (map (tree_in (in_frame (values stack.now) frame)) (arguments (seen term.entry))) }
{
    let mut left = term.arity();
    while left > 0 {
        left -= 1;
        put_term(stack, frame, term.argument(left), nodes_left, depth, built)?;
    }
    Ok(())
}

/// Puts what the local with this number stands for in front.
#[cycle(build)]
fn put_local(
    stack: &[Local<'_>],
    frame: Frame,
    number: usize,
    nodes_left: &mut u32,
    depth: u32,
    built: &mut TermStack,
) -> Result<(), Stop>
    ensures ok { OnOk result (IsPut nodes_left.old nodes_left.new depth ((value_at (in_frame (values stack.now) frame) number).tree) built.old built.new) }
    ensures large { result ≡ Err Stop.TooLarge → IsTooLargeTerm nodes_left.old depth ((value_at (in_frame (values stack.now) frame) number).tree) }
{
    match local_at(stack, frame, number) {
        Local::Variable(variable) => put_leaf(TermLeaf::Var(variable), nodes_left, depth, built),
        Local::Name(name) => put_leaf(TermLeaf::Private(name), nodes_left, depth, built),
        Local::Argument(written, outer) => {
            put_term(stack, outer, written.tree.whole(), nodes_left, depth, built)
        }
    }
}

/// Puts a leaf in front.
fn put_leaf(
    leaf: TermLeaf,
    nodes_left: &mut u32,
    depth: u32,
    built: &mut TermStack,
) -> Result<(), Stop>
    ensures ok { OnOk result (IsPut nodes_left.old nodes_left.new depth (leaf_tree (leaf_seen leaf)) built.old built.new) }
    ensures large { result ≡ Err Stop.TooLarge → IsTooLargeTerm nodes_left.old depth (leaf_tree (leaf_seen leaf)) }
{
    take_node(nodes_left, depth)?;
    built.push_leaf(leaf)?;
    Ok(())
}

/// Adds the private names of a term, in text order.
pub(crate) fn add_privates(
    stack: &[Local<'_>],
    frame: Frame,
    uses: &[Use],
    found: &mut Vec<PrivateUse>,
) -> Result<(), NoMemory>
    ensures { OnOk result (found.new.items ≡ found.old.items ++ privates_of (in_frame (values stack.now) frame) uses.now) }
{
    for item in uses {
        match *item {
            Use::PrivateName(name, place) => found.push(PrivateUse { name, place })?,
            Use::Local(number) => {
                if let Local::Argument(written, outer) = local_at(stack, frame, number) {
                    add_privates(stack, outer, written.uses.as_slice(), found)?;
                }
            }
        }
    }
    Ok(())
}

/// The root of the term with what the locals of the frame stand for.
pub(crate) fn root(stack: &[Local<'_>], frame: Frame, term: TermRef<'_>) -> TermView
    ensures { result ≡ view_of (tree_in (in_frame (values stack.now) frame) (seen term.entry)) }
{
    match term.view() {
        TermView::Var(number) => match local_at(stack, frame, number as usize) {
            Local::Variable(variable) => TermView::Var(variable),
            Local::Name(name) => TermView::Private(name),
            Local::Argument(written, outer) => root(stack, outer, written.tree.whole()),
        },
        view => view,
    }
}

/// The declared name that has this root, by its number, if one does.
pub(crate) fn declared_name(private_names: &[u32], root: TermView) -> Option<u32>
    ensures { (t : Tree) → root ≡ view_of t → result ≡ declared_name private_names.now t }
{
    match root {
        TermView::Public(PublicName::Declared(number)) => Some(number),
        TermView::Private(index) => private_names.get(index as usize).copied(),
        _ => None,
    }
}
