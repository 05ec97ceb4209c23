//! The least number that is above those of all variables.
ghost use Rattle.std.specs.Prelude.{◌≡◌, ◌∷◌, ◌++◌, ◌+◌, [], IfOk, max, map};
ghost use Rattle.std.specs.List.{flat_map};
ghost use Rattle.dps_terms.specs.Variables.{occurrences};
ghost use Rattle.dps_know.specs.Know.{compositions};
ghost use Rattle.dps_solver.specs.Code.{disequation_of};
ghost use Rattle.dps_solver.specs.Search.{least_above, first_new, entry_numbers, disequation_numbers, system_numbers};
ghost use Rattle.dps_search.specs.Code.{scene_of, system_of, ask_of};
ghost use Rattle.dps_search.specs.Numbers.{root_numbers, composition_numbers, pair_numbers, target_numbers};
ghost use Rattle.dps_terms.specs.Seen.{seen};

use crate::scene::{Ask, Scene};
use dps_know::{Entry, Know};
use dps_solver::{Disequation, Target};
use dps_terms::{NoMemory, Term, TermRef, TermView};
use std::alloc::AllocError;

/// The least number above those of all variables of the scene and the ask, the names of targets and free variables of
/// disequations included. It fails too where it is no number of 64 bits.
pub(crate) fn first_new(scene: &Scene, ask: &Ask) -> Result<u64, NoMemory>
    ensures { IfOk result (λ n. n ≡ first_new (scene_of scene.now) (ask_of ask.now)) }
{
    let system = above_system(scene)?;
    let values = above_terms(&scene.values, system)?;
    let equations = above_pairs(&ask.equations, values)?;
    above_targets(&ask.targets, equations)
}

fn above_system(scene: &Scene) -> Result<u64, NoMemory>
    ensures { IfOk result (λ n. n ≡ least_above (system_numbers (system_of scene.now))) }
{
    let levels = above_levels(&scene.levels, 0)?;
    let entries = above_know(&scene.know, levels)?;
    let labels = above_terms(&scene.labels, entries)?;
    above_disequations(&scene.disequations, labels)
}

fn above_levels(levels: &[(u64, u32)], next: u64) -> Result<u64, NoMemory>
    ensures { IfOk result (λ n. n ≡ max next (least_above (map (λ p. p.0) levels.now))) }
{
    let mut above = next;
    for pair in levels {
        above = above_number(pair.0, above)?;
    }
    Ok(above)
}

fn above_know(know: &Know, next: u64) -> Result<u64, NoMemory>
    ensures { IfOk result (λ n. n ≡ max next (least_above (flat_map entry_numbers know.now.entries ++ (flat_map occurrences (compositions know.now) ++ flat_map occurrences know.now.handles)))) }
{
    let recipes = above_recipes(know, next)?;
    let compositions = above_compositions(know, recipes)?;
    above_terms(know.handles(), compositions)
}

fn above_recipes(know: &Know, next: u64) -> Result<u64, NoMemory>
    ensures { IfOk result (λ n. n ≡ max next (least_above (flat_map entry_numbers know.now.entries))) }
{
    let mut above = next;
    for place in 0..know.entries() {
        above = above_term(&know.entry(place + 1).recipe, above)?;
    }
    Ok(above)
}

fn above_compositions(know: &Know, next: u64) -> Result<u64, NoMemory>
    ensures { IfOk result (λ n. n ≡ max next (least_above (flat_map composition_numbers know.now.entries))) }
{
    let mut above = next;
    for place in 0..know.entries() {
        above = above_composition(know.entry(place + 1), above)?;
    }
    Ok(above)
}

fn above_composition(entry: &Entry, next: u64) -> Result<u64, NoMemory>
    ensures { IfOk result (λ n. n ≡ max next (least_above (composition_numbers entry.now))) }
{
    match &entry.composition {
        Some(composition) => above_term(composition, next),
        None => Ok(next),
    }
}

fn above_disequations(disequations: &[Disequation], next: u64) -> Result<u64, NoMemory>
    ensures { IfOk result (λ n. n ≡ max next (least_above (flat_map (λ d. disequation_numbers (disequation_of d)) disequations.now))) }
{
    let mut above = next;
    for disequation in disequations {
        let free = above_numbers(&disequation.free, above)?;
        above = above_pairs(&disequation.pairs, free)?;
    }
    Ok(above)
}

fn above_targets(targets: &[Target], next: u64) -> Result<u64, NoMemory>
    ensures { IfOk result (λ n. n ≡ max next (least_above (flat_map target_numbers targets.now))) }
{
    let mut above = next;
    for target in targets {
        let name = above_number(target.name, above)?;
        above = above_term(&target.term, name)?;
    }
    Ok(above)
}

fn above_pairs(pairs: &[(Term, Term)], next: u64) -> Result<u64, NoMemory>
    ensures { IfOk result (λ n. n ≡ max next (least_above (flat_map pair_numbers pairs.now))) }
{
    let mut above = next;
    for pair in pairs {
        let left = above_term(&pair.0, above)?;
        above = above_term(&pair.1, left)?;
    }
    Ok(above)
}

fn above_terms(terms: &[Term], next: u64) -> Result<u64, NoMemory>
    ensures { IfOk result (λ n. n ≡ max next (least_above (flat_map occurrences terms.now))) }
{
    let mut above = next;
    for term in terms {
        above = above_term(term, above)?;
    }
    Ok(above)
}

fn above_term(term: &Term, next: u64) -> Result<u64, NoMemory>
    ensures { IfOk result (λ n. n ≡ max next (least_above (occurrences term.now))) }
{
    let nodes = term.whole();
    let mut above = next;
    let mut left = nodes.node_count();
    while left > 0 {
        left -= 1;
        above = above_root(nodes.subterm(left), above)?;
    }
    Ok(above)
}

fn above_root(term: TermRef<'_>, next: u64) -> Result<u64, NoMemory>
    ensures { IfOk result (λ n. n ≡ max next (least_above (root_numbers (seen term.entry)))) }
{
    match term.view() {
        TermView::Var(number) => above_number(number, next),
        _ => Ok(next),
    }
}

fn above_numbers(numbers: &[u64], next: u64) -> Result<u64, NoMemory>
    ensures { IfOk result (λ n. n ≡ max next (least_above numbers.now)) }
{
    let mut above = next;
    for number in numbers {
        above = above_number(*number, above)?;
    }
    Ok(above)
}

/// The next number, or the one behind this, whichever is greater.
fn above_number(number: u64, next: u64) -> Result<u64, NoMemory>
    ensures { IfOk result (λ n. n ≡ max next (number + 1)) }
{
    match number.checked_add(1) {
        Some(behind) => Ok(next.max(behind)),
        None => Err(AllocError),
    }
}
