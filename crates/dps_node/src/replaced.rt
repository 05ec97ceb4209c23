//! Trees and disequations with trees put for variables.
ghost use Rattle.std.specs.Prelude.{◌≡◌, map, ℕ, IfOk};
ghost use Rattle.dps_terms.specs.Tree.{Tree};
ghost use Rattle.dps_terms.specs.Bindings.{image};
ghost use Rattle.dps_terms.specs.Replace.{substitute};
ghost use Rattle.dps_solver.specs.Code.{disequation_of};
ghost use Rattle.dps_node.specs.Splits.{disequation_under};

use dps_solver::Disequation;
use dps_terms::{NoMemory, Subst, Term};
use std::alloc::Global;

/// The trees with what is put for their variables.
pub(crate) fn trees_under(alloc: Global, trees: &[Term], by: &Subst) -> Result<Vec<Term>, NoMemory>
    ensures { IfOk result (λ v. v.items ≡ map (substitute (image by.now)) trees.now) }
{
    let mut made = Vec::with_capacity(alloc, trees.len())?;
    for tree in trees {
        let one = tree.subst(alloc, by)?;
        made.push(one)?;
    }
    Ok(made)
}

/// The disequations with what is put for their variables.
pub(crate) fn disequations_under(
    alloc: Global,
    disequations: &[Disequation],
    by: &Subst,
) -> Result<Vec<Disequation>, NoMemory>
    ensures { IfOk result (λ v. map disequation_of v.items ≡ map (disequation_under (image by.now)) (map disequation_of disequations.now)) }
{
    let mut made = Vec::with_capacity(alloc, disequations.len())?;
    for disequation in disequations {
        let one = disequation_with(alloc, disequation, by)?;
        made.push(one)?;
    }
    Ok(made)
}

fn disequation_with(
    alloc: Global,
    disequation: &Disequation,
    by: &Subst,
) -> Result<Disequation, NoMemory>
    ensures { IfOk result (λ d. disequation_of d ≡ disequation_under (image by.now) (disequation_of disequation.now)) }
{
    let free = Vec::from_slice(alloc, &disequation.free)?;
    let pairs = pairs_under(alloc, &disequation.pairs, by)?;
    Ok(Disequation { free, pairs })
}

fn pairs_under(
    alloc: Global,
    pairs: &[(Term, Term)],
    by: &Subst,
) -> Result<Vec<(Term, Term)>, NoMemory>
    ensures { IfOk result (λ v. v.items ≡ map (λ (p : Tree × Tree). (substitute (image by.now) p.0, substitute (image by.now) p.1)) pairs.now) }
{
    let mut made = Vec::with_capacity(alloc, pairs.len())?;
    for (tree, pattern) in pairs {
        let tree = tree.subst(alloc, by)?;
        let pattern = pattern.subst(alloc, by)?;
        made.push((tree, pattern))?;
    }
    Ok(made)
}
