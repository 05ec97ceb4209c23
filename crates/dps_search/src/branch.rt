//! A branch of the search, and the steps to the next ones.
ghost use Rattle.std.specs.Prelude.{◌≡◌, ◌↔◌, ◌+◌, ◌^◌, ◌<◌, length, IfOk, OnOk, IsTrue};
ghost use Rattle.dps_terms.specs.Bindings.{image};
ghost use Rattle.dps_terms.specs.Replace.{substitute};
ghost use Rattle.dps_terms.specs.Views.{arguments};
ghost use Rattle.dps_terms.specs.Seen.{seen};
ghost use Rattle.dps_solver.specs.Search.{with_bound, with_one_bound, lowered, composed};
ghost use Rattle.dps_solver.specs.Levels.{IsVariableUpTo};
ghost use Rattle.dps_search.specs.Code.{branch_of};
ghost use Rattle.dps_bindings.specs.Pieces.{piece_tree};
ghost use Rattle.dps_search.specs.Going.{with_one_tree, IsFollowed, targets_from};

use crate::closed::is_closed;
use dps_bindings::{Bindings, Given, Piece, level, put, root_over};
use dps_solver::Target;
use dps_terms::{NoMemory, Term, TermLeaf, TermRef, TermView};
use dps_unify::VarOrder;
use std::alloc::{AllocError, Global};

/// A branch of the search.
#[derive(Drop)]
pub(crate) struct Branch {
    /// What is put for variables in values.
    pub(crate) theta: Bindings,
    /// The trees that the variables and the targets got, in turn. A tree may hold variables that got theirs later.
    pub(crate) trees: Vec<Given>,
    /// The targets that are left.
    pub(crate) targets: Vec<Target>,
    /// The variables with their levels.
    pub(crate) order: VarOrder,
    /// The least number that no variable has had.
    pub(crate) next: u64,
}

/// The piece is put for the variable in the trees.
pub(crate) fn give(branch: &mut Branch, variable: u64, piece: Piece) -> Result<(), NoMemory>
    ensures { OnOk result (branch_of branch.new ≡ with_one_tree variable (piece_tree piece) (branch_of branch.old)) }
{
    branch.trees.push(Given { variable, piece })?;
    Ok(())
}

/// The target, which is not among those that are left, gets the variable as its tree where this has at most its level, and
/// takes its place else.
pub(crate) fn follow(
    alloc: Global,
    branch: &mut Branch,
    target: &Target,
    variable: u64,
) -> Result<(), NoMemory>
    ensures { OnOk result (IsFollowed (branch_of branch.old) target.now branch.old.targets.items variable (branch_of branch.new)) }
{
    if is_up_to(&branch.order, target.level, variable) {
        return give(branch, target.name, Piece::Leaf(TermLeaf::Var(variable)));
    }
    lower(alloc, branch, target, variable)
}

/// Whether the variable has a level of at most this one.
fn is_up_to(order: &VarOrder, most: u32, variable: u64) -> bool
    ensures { IsTrue result ↔ IsVariableUpTo order.now.levels.items most variable }
{
    match level(&order.levels, variable) {
        Some(level) => level <= most,
        None => false,
    }
}

/// The variable becomes the target's, at the target's level.
fn lower(alloc: Global, branch: &mut Branch, target: &Target, variable: u64) -> Result<(), NoMemory>
    ensures { OnOk result (branch_of branch.new ≡ lowered (branch_of branch.old) target.now branch.old.targets.items variable) }
{
    let theta = put(
        alloc,
        &branch.theta,
        variable,
        Term::var(alloc, target.name)?,
    )?;
    let levels = &mut branch.order.levels;
    levels.insert(0, (target.name, target.level))?;
    branch.theta = theta;
    give(branch, variable, Piece::Leaf(TermLeaf::Var(target.name)))
}

/// The root of the target's term is composed of trees that are sought first from now on. The target is not among those that
/// are left. A term in which nothing can be put is not copied.
pub(crate) fn compose_root(
    alloc: Global,
    branch: &mut Branch,
    target: &Target,
) -> Result<(), NoMemory>
    ensures { OnOk result (branch_of branch.new ≡ composed (branch_of branch.old) target.now branch.old.targets.items (substitute (image branch.old.theta) target.now.term)) }
{
    if is_closed(target.term.whole()) {
        return compose(alloc, branch, target, target.term.whole());
    }
    let term = target.term.whole().replaced(alloc, &branch.theta)?;
    compose(alloc, branch, target, term.whole())
}

/// The root of the term is composed of trees that are sought first from now on.
fn compose(
    alloc: Global,
    branch: &mut Branch,
    target: &Target,
    term: TermRef<'_>,
) -> Result<(), NoMemory>
    ensures { OnOk result (branch_of branch.new ≡ composed (branch_of branch.old) target.now branch.old.targets.items (seen term.entry)) }
{
    let first = branch.next;
    let Some(next) = first.checked_add(u64::from(term.arity())) else {
        return Err(AllocError);
    };
    let piece = root_over(term, first);
    let mut targets = argument_targets(alloc, target.level, term, first)?;
    targets.append(&mut branch.targets)?;
    branch.targets = targets;
    branch.next = next;
    give(branch, target.name, piece)
}

/// The targets of the arguments, which go by the names of new variables, from the first one on.
fn argument_targets(
    alloc: Global,
    level: u32,
    term: TermRef<'_>,
    first: u64,
) -> Result<Vec<Target>, NoMemory>
    requires { first + length (arguments (seen term)) < 2 ^ 64 }
    ensures { IfOk result (λ v. v.items ≡ targets_from level first (arguments (seen term.entry))) }
{
    let mut targets = Vec::with_capacity(alloc, term.arity() as usize)?;
    for index in 0..term.arity() {
        let term = term.argument(index).copy(alloc)?;
        targets.push(Target {
            name: first + u64::from(index),
            level,
            term,
        })?;
    }
    Ok(targets)
}

/// A variable that is newly bound to another one has it as its tree; for one that is bound to another term a tree is sought.
pub(crate) fn add_bound(
    alloc: Global,
    branch: &mut Branch,
    bound: &[(u64, u32)],
) -> Result<(), NoMemory>
    ensures { OnOk result (branch_of branch.new ≡ with_bound bound.now (branch_of branch.old)) }
{
    for pair in bound {
        add_one_bound(alloc, branch, pair.0, pair.1)?;
    }
    Ok(())
}

fn add_one_bound(
    alloc: Global,
    branch: &mut Branch,
    variable: u64,
    level: u32,
) -> Result<(), NoMemory>
    ensures { OnOk result (branch_of branch.new ≡ with_one_bound (image branch.old.theta variable) (variable, level) (branch_of branch.old)) }
{
    let term = bound_term(alloc, &branch.theta, variable)?;
    if let TermView::Var(other) = term.whole().view() {
        return give(branch, variable, Piece::Leaf(TermLeaf::Var(other)));
    }
    let targets = &mut branch.targets;
    targets.push(Target {
        name: variable,
        level,
        term,
    })?;
    Ok(())
}

/// What is put for the variable, or itself.
pub(crate) fn bound_term(
    alloc: Global,
    bindings: &Bindings,
    variable: u64,
) -> Result<Term, NoMemory>
    ensures { IfOk result (λ t. t ≡ image bindings.now variable) }
{
    match bindings.get(variable) {
        Some(term) => term.copy(alloc),
        None => Term::var(alloc, variable),
    }
}
