//! Questions, and how they are asked.
ghost use Rattle.std.specs.Prelude.{◌≡◌, ◌≤◌, ◌<◌, ◌-◌, ◌+◌, ◌++◌, ℕ, All, IfOk, OnOk, MatchOption, List, length, map, take, get_or, true, false};
ghost use Rattle.dps_terms.specs.Tree.{leaf, var};
ghost use Rattle.dps_terms.specs.Same.{same};
ghost use Rattle.dps_terms.specs.Bindings.{image};
ghost use Rattle.dps_search.specs.Code.{scene_of};
ghost use Rattle.dps_search.specs.declared.scene.Stop.TheVariants.{Spent};
ghost use Rattle.dps_node.specs.declared.asking.Found.{Found as CodeFound};
ghost use Rattle.dps_node.specs.Questions.{Found as FoundValue, Answer as AnswerValue, FindsAll, Answers, AnswersWhole, AsksIn};
ghost use Rattle.dps_node.specs.Asking.{query_of, found_at, found_in, IsAnswer, binds_nothing as nothing_bound, is_plain_as};

use dps_renewal::is_variable;
use dps_search::{Ask, Mgs, Scene, Steps, Stop, solve};
use dps_terms::{NoMemory, Subst, Term};
use std::alloc::Global;

/// An ask, with the term whose value or tree is wanted. A question is a list of these.
#[derive(Drop)]
pub struct Query {
    pub ask: Ask,
    pub result: Term,
}

/// A solution of a question's query.
#[derive(Drop)]
pub struct Found {
    /// The place of the query in the question, counted from 0.
    pub place: usize,
    pub solution: Mgs,
}

/// What comes of a question.
#[derive(Drop)]
pub enum Answer {
    /// It holds under each solution of the node, by this plain solution.
    True(Found),
    /// It holds under none.
    False,
    /// It is open, and the node can be split on this solution.
    Open(Mgs),
}

/// Asks the question in the scene. It is true where a plain solution is found, by the first one; it is false where none is
/// found; and else it is open at the first. It takes one step, and one for each move of the searches.
///
/// `Stop::Spent` comes only where these are more steps than are left, and `Stop::Memory` where memory runs out.
pub fn ask(
    alloc: Global,
    scene: &Scene,
    question: &[Query],
    steps: &mut Steps,
) -> Result<Answer, Stop>
    requires { steps.old.used ≤ steps.old.budget }
    ensures answered { IfOk result (λ r. (a : AnswerValue) × IsAnswer (map query_of question.now) r a × AsksIn Answers (scene_of scene.now) (map query_of question.now) a (steps.new.used - steps.old.used)) }
    ensures spent { result ≡ Err Spent → (a : AnswerValue) (n : ℕ) → AsksIn Answers (scene_of scene.now) (map query_of question.now) a n → steps.old.budget - steps.old.used < n }
    ensures no_less { steps.old.used ≤ steps.new.used }
    ensures no_more { steps.new.used ≤ steps.new.budget }
    ensures budget { steps.new.budget ≡ steps.old.budget }
{
    let mut found = find_counted(alloc, scene, question, steps)?;
    if let Some(place) = first_where(&scene.levels, &found, true) {
        return Ok(Answer::True(found.swap_remove(place)));
    }
    if found.is_empty() {
        return Ok(Answer::False);
    }
    Ok(Answer::Open(found.swap_remove(0).solution))
}

/// Asks the question in the scene and reads the answer in whole: it is true where all that is found is plain, by the first; it
/// is false where nothing is found; and else it is open at the first solution that is not plain.
///
/// Steps and errors are those of `ask`.
pub fn ask_whole(
    alloc: Global,
    scene: &Scene,
    question: &[Query],
    steps: &mut Steps,
) -> Result<Answer, Stop>
    requires { steps.old.used ≤ steps.old.budget }
    ensures answered { IfOk result (λ r. (a : AnswerValue) × IsAnswer (map query_of question.now) r a × AsksIn AnswersWhole (scene_of scene.now) (map query_of question.now) a (steps.new.used - steps.old.used)) }
    ensures spent { result ≡ Err Spent → (a : AnswerValue) (n : ℕ) → AsksIn AnswersWhole (scene_of scene.now) (map query_of question.now) a n → steps.old.budget - steps.old.used < n }
    ensures no_less { steps.old.used ≤ steps.new.used }
    ensures no_more { steps.new.used ≤ steps.new.budget }
    ensures budget { steps.new.budget ≡ steps.old.budget }
{
    let mut found = find_counted(alloc, scene, question, steps)?;
    if let Some(place) = first_where(&scene.levels, &found, false) {
        return Ok(Answer::Open(found.swap_remove(place).solution));
    }
    if found.is_empty() {
        return Ok(Answer::False);
    }
    Ok(Answer::True(found.swap_remove(0)))
}

/// All solutions of the question, in the order of its queries. It takes one step, and one for each move of the searches.
///
/// Errors are those of `ask`.
pub fn find_counted(
    alloc: Global,
    scene: &Scene,
    question: &[Query],
    steps: &mut Steps,
) -> Result<Vec<Found>, Stop>
    requires { steps.old.used ≤ steps.old.budget }
    ensures found { IfOk result (λ v. (moves : ℕ) × FindsAll (scene_of scene.now) (map query_of question.now) (map (found_in (map query_of question.now)) v.items) moves × (steps.new.used ≡ steps.old.used + 1 + moves)) }
    ensures places { IfOk result (λ v. All (λ f. f.place < length question.now) v.items) }
    ensures spent { result ≡ Err Spent → (list : List FoundValue) (moves : ℕ) → FindsAll (scene_of scene.now) (map query_of question.now) list moves → steps.old.budget - steps.old.used < 1 + moves }
    ensures no_less { steps.old.used ≤ steps.new.used }
    ensures no_more { steps.new.used ≤ steps.new.budget }
    ensures budget { steps.new.budget ≡ steps.old.budget }
{
    if steps.used == steps.budget {
        return Err(Stop::Spent);
    }
    steps.used += 1;
    let mut found = Vec::new(alloc);
    for (place, query) in question.iter().enumerate() {
        match solve(alloc, scene, &query.ask, steps) {
            Ok(solutions) => append(&mut found, place, solutions)?,
            Err(stop) => return Err(stop),
        }
    }
    Ok(found)
}

/// Adds the solutions of the query at the place.
fn append(found: &mut Vec<Found>, place: usize, mut solutions: Vec<Mgs>) -> Result<(), NoMemory>
    ensures { OnOk result (found.new.items ≡ found.old.items ++ map (found_at place) solutions.items) }
{
    solutions.as_mut_slice().reverse();
    while let Some(solution) = solutions.pop() {
        found.push(Found { place, solution })?;
    }
    Ok(())
}

/// The place of the first solution that is plain, or of the first that is not.
fn first_where(levels: &[(u64, u32)], found: &[Found], plain: bool) -> Option<usize>
    ensures { MatchOption result (All (λ f. is_plain_as levels.now plain f ≡ false) found.now) (λ i. (i < length found.now) × All (λ f. is_plain_as levels.now plain f ≡ false) (take i found.now) × ((d : CodeFound) → is_plain_as levels.now plain (get_or found.now i d) ≡ true)) }
{
    for (place, one) in found.iter().enumerate() {
        if binds_nothing(levels, &one.solution.bindings) == plain {
            return Some(place);
        }
    }
    None
}

/// Whether each of the variables stays.
fn binds_nothing(levels: &[(u64, u32)], bindings: &Subst) -> bool
    ensures { result ≡ nothing_bound levels.now bindings.now }
{
    for pair in levels {
        if !stays(bindings, pair.0) {
            return false;
        }
    }
    true
}

/// Whether the variable is not bound to another tree.
fn stays(bindings: &Subst, variable: u64) -> bool
    ensures { result ≡ same (image bindings.now variable) (leaf (var variable)) }
{
    match bindings.get(variable) {
        Some(tree) => is_variable(tree.whole(), variable),
        None => true,
    }
}
