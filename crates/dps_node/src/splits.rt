//! Splits of a node on bindings of its variables.
ghost use Rattle.std.specs.Prelude.{◌≡◌, ◌++◌, ◌∷◌, [], All, map, ℕ, IfOk, OnOk};
ghost use Rattle.std.specs.List.{range_with_len};
ghost use Rattle.dps_terms.specs.Tree.{Tree};
ghost use Rattle.dps_terms.specs.Bindings.{image};
ghost use Rattle.dps_solver.specs.Code.{disequation_of};
ghost use Rattle.dps_node.specs.Splits.{CanSplit, Applies, IsSplit, BindsNoneOf, HasOlderEntries, excluded, exclusion};
ghost use Rattle.dps_renewal.specs.Putting.{PutsNothing, changes};
ghost use Rattle.dps_node.specs.Code.{IsRenewal, config_of, node_of};

use crate::Node;
use crate::configs::configs_under;
use crate::labels::labels_under;
use crate::numbering::variables;
use crate::replaced::disequations_under;
use dps_renewal::{Renewal, renew};
use dps_solver::Disequation;
use dps_terms::{NoMemory, Subst, Term};
use std::alloc::{AllocError, Global};

/// The two kids of a split: the node with the bindings put everywhere, and the node with the disequation that excludes them.
/// New variables get the node's next numbers in both.
pub fn split(alloc: Global, node: Node, bindings: &Subst) -> Result<Vec<Node>, NoMemory>
    requires { CanSplit (node_of node) (image bindings.now) }
    ensures { IfOk result (λ kids. IsSplit (node_of node) (image bindings.now) (map node_of kids.items)) }
{
    let renewal = renewal_of(alloc, &node, bindings)?;
    let first = applied(alloc, &node, &renewal)?;
    let second = excluded_from(alloc, node, renewal)?;
    let mut kids = Vec::with_capacity(alloc, 2)?;
    kids.push(first)?;
    kids.push(second)?;
    Ok(kids)
}

/// What becomes of the node's variables.
fn renewal_of(alloc: Global, node: &Node, bindings: &Subst) -> Result<Renewal, NoMemory>
    ensures { IfOk result (λ r. IsRenewal (node_of node.now) (image bindings.now) r) }
{
    let variables = variables(alloc, node)?;
    renew(alloc, &variables, node.levels.len() as u64 + 1, bindings)
}

/// The node with the bindings put everywhere.
fn applied(alloc: Global, node: &Node, renewal: &Renewal) -> Result<Node, NoMemory>
    requires older { All (λ c. HasOlderEntries (image renewal.now.by) c.values) (map config_of node.now.configs.items) }
    requires apart { All (BindsNoneOf (image renewal.now.by)) (map config_of node.now.configs.items) }
    requires only { PutsNothing (renewal.now.own.items ++ renewal.now.fresh.keys) renewal.now.by }
    ensures { (bindings : ℕ → Tree) → IsRenewal (node_of node.now) bindings renewal.now → CanSplit (node_of node.now) bindings → IfOk result (λ kid. Applies (node_of node.now) bindings (node_of kid)) }
{
    let by = &renewal.by;
    let labels = labels_under(alloc, &node.labels, by)?;
    let levels = joined(alloc, &node.levels, &renewal.levels)?;
    let mut know = node.know.copy(alloc)?;
    know.apply(alloc, by)?;
    let disequations = disequations_under(alloc, &node.disequations, by)?;
    let configs = configs_under(alloc, &node.configs, renewal)?;
    Ok(Node {
        labels,
        levels,
        know,
        disequations,
        configs,
        m: node.m,
        closed: node.closed,
        examine: node.examine,
        count: node.count,
    })
}

/// The one list and then the other.
fn joined(alloc: Global, first: &[u32], second: &[u32]) -> Result<Vec<u32>, NoMemory>
    ensures { IfOk result (λ v. v.items ≡ first.now ++ second.now) }
{
    let mut all = Vec::with_capacity(alloc, first.len())?;
    all.extend_from_slice(first)?;
    all.extend_from_slice(second)?;
    Ok(all)
}

/// The node with one more disequation.
fn excluded_from(alloc: Global, node: Node, renewal: Renewal) -> Result<Node, NoMemory>
    ensures { (bindings : ℕ → Tree) → IsRenewal (node_of node) bindings renewal → IfOk result (λ kid. node_of kid ≡ excluded (node_of node) bindings) }
{
    let disequation = exclusion_of(alloc, &node, &renewal)?;
    let mut kid = node;
    kid.disequations.push(disequation)?;
    kid.levels.extend_from_slice(&renewal.levels)?;
    Ok(kid)
}

/// That no trees for the new variables give the bindings.
fn exclusion_of(alloc: Global, node: &Node, renewal: &Renewal) -> Result<Disequation, NoMemory>
    ensures { (bindings : ℕ → Tree) → IsRenewal (node_of node.now) bindings renewal.now → IfOk result (λ d. disequation_of d ≡ exclusion (node_of node.now) bindings) }
{
    let first = node.levels.len() as u64 + 1;
    let free = counted_from(alloc, first, renewal.fresh.len())?;
    let pairs = changed_pairs(alloc, &renewal.own, &renewal.by)?;
    Ok(Disequation { free, pairs })
}

/// So many numbers, from the first on.
fn counted_from(alloc: Global, first: u64, count: usize) -> Result<Vec<u64>, NoMemory>
    ensures { IfOk result (λ v. v.items ≡ range_with_len first count) }
{
    let mut numbers = Vec::with_capacity(alloc, count)?;
    for index in 0..count {
        let Some(number) = first.checked_add(index as u64) else {
            return Err(AllocError);
        };
        numbers.push(number)?;
    }
    Ok(numbers)
}

/// The variables for which another tree is put, each with it.
fn changed_pairs(
    alloc: Global,
    variables: &[u64],
    by: &Subst,
) -> Result<Vec<(Term, Term)>, NoMemory>
    ensures { IfOk result (λ v. v.items ≡ changes by.now variables.now) }
{
    let mut pairs = Vec::new(alloc);
    for variable in variables {
        push_change(alloc, &mut pairs, *variable, by)?;
    }
    Ok(pairs)
}

/// Adds the variable with its tree, where another tree is put for it.
fn push_change(
    alloc: Global,
    pairs: &mut Vec<(Term, Term)>,
    variable: u64,
    by: &Subst,
) -> Result<(), NoMemory>
    ensures { OnOk result (pairs.new.items ≡ pairs.old.items ++ changes by.now (variable ∷ [])) }
{
    if let Some(tree) = by.get(variable) {
        let itself = Term::var(alloc, variable)?;
        let tree = tree.copy(alloc)?;
        pairs.push((itself, tree))?;
    }
    Ok(())
}
