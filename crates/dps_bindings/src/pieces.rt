//! Pieces of trees, put one after the other.
ghost use Rattle.std.specs.Prelude.{◌≡◌, ◌<◌, ◌∷◌, ◌+◌, ◌^◌, length, IfOk, OnOk};
ghost use Rattle.std.specs.List.{range_with_len};
ghost use Rattle.dps_terms.specs.Bindings.{image};
ghost use Rattle.dps_terms.specs.Replace.{substitute};
ghost use Rattle.dps_terms.specs.Seen.{seen};
ghost use Rattle.dps_terms.specs.Views.{arguments};
ghost use Rattle.dps_solver.specs.Search.{then_put, root_over as over_variables};
ghost use Rattle.dps_solver.specs.Solutions.{identity};
ghost use Rattle.dps_bindings.specs.Pieces.{piece_tree, root_tree, pairs_of, put_for};
ghost use Rattle.dps_bindings.specs.Putting.{in_turn, image_with};

use crate::bindings::Bindings;
use crate::piece::{Given, Piece, Root};
use dps_terms::{NoMemory, Replacement, Term, TermLeaf, TermRef, TermStack, TermView};
use std::alloc::Global;

/// The root of the term over variables, from the first one on.
pub fn root_over(term: TermRef<'_>, first: u64) -> Piece
    requires { first + length (arguments (seen term)) < 2 ^ 64 }
    ensures { piece_tree result ≡ over_variables (seen term.entry) (range_with_len first (length (arguments (seen term.entry)))) }
{
    match term.view() {
        TermView::App(sym) => Piece::Root(Root {
            sym,
            arity: term.arity(),
            first,
        }),
        TermView::Public(name) => Piece::Leaf(TermLeaf::Public(name)),
        TermView::Private(number) => Piece::Leaf(TermLeaf::Private(number)),
        TermView::Var(number) => Piece::Leaf(TermLeaf::Var(number)),
        TermView::Ax(number) => Piece::Leaf(TermLeaf::Ax(number)),
        TermView::Entry(number) => Piece::Leaf(TermLeaf::Entry(number)),
        TermView::Rigid(number) => Piece::Leaf(TermLeaf::Rigid(number)),
    }
}

/// No variable has a piece.
pub fn nothing_given(alloc: Global) -> Vec<Given>
    ensures { in_turn (pairs_of result.items) ≡ identity }
{
    Vec::new(alloc)
}

/// The same with one more, in memory of its own.
pub fn with_given(alloc: Global, given: &[Given], one: Given) -> Result<Vec<Given>, NoMemory>
    ensures { IfOk result (λ v. in_turn (pairs_of v.items) ≡ then_put one.variable (piece_tree one.piece) (in_turn (pairs_of given.now))) }
{
    let mut made = Vec::from_slice(alloc, given)?;
    made.push(one)?;
    Ok(made)
}

/// What the variables become when the pieces are put one after the other.
pub fn put_in_turn(alloc: Global, given: &[Given]) -> Result<Bindings, NoMemory>
    ensures { IfOk result (λ s. image s ≡ in_turn (pairs_of given.now)) }
{
    let mut later = Bindings::empty(alloc);
    let mut left = given.len();
    while left > 0 {
        left -= 1;
        put_before(alloc, &mut later, given[left])?;
    }
    Ok(later)
}

/// The piece is put for its variable before the others are put.
fn put_before(alloc: Global, later: &mut Bindings, given: Given) -> Result<(), NoMemory>
    ensures { OnOk result (image later.new ≡ image_with given.variable (substitute (image later.old) (piece_tree given.piece)) (image later.old)) }
{
    let tree = piece_under(alloc, later, given.piece)?;
    later.set(given.variable, tree)
}

/// The piece, with what is put for variables.
fn piece_under(alloc: Global, later: &Bindings, piece: Piece) -> Result<Term, NoMemory>
    ensures { IfOk result (λ t. t ≡ substitute (image later.now) (piece_tree piece)) }
{
    let mut stack = TermStack::empty(alloc);
    put_piece(later, piece, &mut stack)?;
    Ok(stack.into_term())
}

/// Puts the piece, with what is put for variables, in front.
fn put_piece(later: &Bindings, piece: Piece, stack: &mut TermStack) -> Result<(), NoMemory>
    ensures { OnOk result (stack.new ≡ substitute (image later.now) (piece_tree piece) ∷ stack.old) }
{
    match piece {
        Piece::Leaf(leaf) => later.put(leaf, stack),
        Piece::Root(root) => put_root(later, root, stack),
    }
}

/// Puts the root over its variables, with what is put for them, in front.
fn put_root(later: &Bindings, root: Root, stack: &mut TermStack) -> Result<(), NoMemory>
    ensures { OnOk result (stack.new ≡ substitute (image later.now) (root_tree root) ∷ stack.old) }
{
    put_variables(later, root.first, root.arity, stack)?;
    stack.apply(root.sym, root.arity)
}

/// Puts what is put for so many variables, from the first one on, in front.
fn put_variables(
    later: &Bindings,
    first: u64,
    count: u32,
    stack: &mut TermStack,
) -> Result<(), NoMemory>
    requires { first + count < 2 ^ 64 }
    ensures { OnOk result (stack.new ≡ put_for (image later.now) first count stack.old) }
{
    let mut left = count;
    while left > 0 {
        left -= 1;
        later.put(TermLeaf::Var(first + u64::from(left)), stack)?;
    }
    Ok(())
}
