//! Whether a term is an instance of a pattern.
ghost use Rattle.std.specs.Prelude.{◌≡◌, ◌↔◌, IfOk, IsTrue, MatchOption, MatchBool};
ghost use Rattle.dps_terms.specs.Tree.{leaf, var};
ghost use Rattle.dps_terms.specs.Seen.{seen};
ghost use Rattle.dps_unify.specs.Matching.{IsMatch, HasNoMatch, Matched, Grows, Refused};
ghost use Rattle.dps_unify.specs.Comparing.{IsCompared};

use dps_terms::{NoMemory, Subst, Term, TermRef, TermView};
use std::alloc::Global;

/// The match that makes the pattern the term: it binds just those variables of the pattern that are among `free`, and
/// leaves the others. `None` comes exactly where no substitution of the variables `free` makes the pattern the term.
pub fn matches(
    alloc: Global,
    pattern: &Term,
    free: &[u64],
    term: &Term,
) -> Result<Option<Subst>, NoMemory>
    ensures { IfOk result (λ o. MatchOption o (HasNoMatch pattern.now free.now term.now) (IsMatch pattern.now free.now term.now)) }
{
    let mut solution = Subst::empty(alloc);
    if extend_match(alloc, &mut solution, free, pattern.whole(), term.whole())? {
        return Ok(Some(solution));
    }
    Ok(None)
}

/// Extends the solution so that the pattern becomes the term: it binds just variables of the pattern that are among `free` and
/// are not bound yet, and leaves the others. `false` comes exactly where no substitution of the variables `free` that agrees
/// with what is bound makes the pattern the term.
///
/// Whatever it answers, what was bound stays bound to the same terms, and only such variables are bound besides: after `false`
/// or want of memory the solution may have grown by some of them.
pub fn extend_match(
    alloc: Global,
    solution: &mut Subst,
    free: &[u64],
    pattern: TermRef<'_>,
    term: TermRef<'_>,
) -> Result<bool, NoMemory>
    ensures found { IfOk result (λ b. MatchBool b (Matched free.now solution.old (seen pattern.entry) (seen term.entry) solution.new)
        (Refused free.now solution.old (seen pattern.entry) (seen term.entry))) }
    ensures grown { Grows free.now solution.old (seen pattern.entry) solution.new }
{
    // So many of the term's last nodes are not compared yet.
    let end = term.node_count();
    let mut left = end;
    for node in 0..pattern.node_count() {
        let part = pattern.subterm(node);
        let other = term.subterm(end - left);
        match match_node(alloc, solution, free, part, other)? {
            Some(compared) => left -= compared,
            None => return Ok(false),
        }
    }
    Ok(true)
}

/// How many nodes of the term are compared with the root of the pattern: all where that is a variable, and else the root.
/// `None` comes where there is no match.
fn match_node(
    alloc: Global,
    solution: &mut Subst,
    free: &[u64],
    pattern: TermRef<'_>,
    term: TermRef<'_>,
) -> Result<Option<usize>, NoMemory>
    ensures found { IfOk result (λ o. MatchOption o (Refused free.now solution.old (seen pattern.entry) (seen term.entry))
        (IsCompared free.now solution.old (seen pattern.entry) (seen term.entry) solution.new)) }
    ensures grown { Grows free.now solution.old (seen pattern.entry) solution.new }
{
    let TermView::Var(variable) = pattern.view() else {
        if pattern.has_root_of(term) {
            return Ok(Some(1));
        }
        return Ok(None);
    };
    if match_variable(alloc, solution, free, variable, term)? {
        return Ok(Some(term.node_count()));
    }
    Ok(None)
}

/// The same for a pattern that is a variable.
fn match_variable(
    alloc: Global,
    solution: &mut Subst,
    free: &[u64],
    variable: u64,
    term: TermRef<'_>,
) -> Result<bool, NoMemory>
    ensures found { IfOk result (λ b. MatchBool b (Matched free.now solution.old (leaf (var variable)) (seen term.entry) solution.new)
        (Refused free.now solution.old (leaf (var variable)) (seen term.entry))) }
    ensures grown { Grows free.now solution.old (leaf (var variable)) solution.new }
{
    if let Some(bound) = solution.get(variable) {
        return Ok(bound.whole().equals(term));
    }
    if !free.contains(&variable) {
        return Ok(term.view() == TermView::Var(variable));
    }
    let image = term.copy(alloc)?;
    solution.bind(variable, image)?;
    Ok(true)
}
