//! What is put for variables in a branch of the search.
ghost use Rattle.std.specs.Prelude.{◌≡◌, ◌<◌, ◌++◌, ◌∷◌, [], ℕ, length, map, slice_get, Contains, None, Some, IfOk, OnOk, OnErr, MatchOption};
ghost use Rattle.std.specs.Option.{option_copied};
ghost use Rattle.dps_terms.specs.Tree.{Tree};
ghost use Rattle.dps_terms.specs.Bindings.{bound, image, IsDistinct};
ghost use Rattle.dps_terms.specs.Replace.{substitute};
ghost use Rattle.dps_solver.specs.Search.{then_put};
ghost use Rattle.dps_terms.specs.Seen.{seen};
ghost use Rattle.dps_terms.specs.Views.{view_of};
ghost use Rattle.dps_bindings.specs.Putting.{under, IsOnceBound, IsPlaceOf, image_with};

use dps_terms::{NoMemory, Replacement, Subst, Term, TermLeaf, TermRef, TermStack, TermView};
use std::alloc::{AllocError, Global};
use std::marker::Model;

/// Distinct variables, each with the term that is put for it. A search puts few terms, so a variable is looked for from the
/// first pair on.
#[derive(Drop)]
pub struct Bindings {
    pairs: Vec<(u64, Term)>,
}

impl Model for Bindings {
    ghost use Rattle.std.specs.Prelude.{ℕ, List};
    ghost use Rattle.std.specs.Coded.{coded_list, coded×, coded_ℕ};
    ghost use Rattle.dps_terms.specs.Tree.{Tree};
    ghost use Rattle.dps_terms.specs.Stored.{tree_code};

    ghost Value = { List (ℕ × Tree) };

    ghost coded = { coded_list (coded× coded_ℕ tree_code) };

    ghost use Rattle.dps_terms.specs.Bindings.{IsDistinct};

    ghost view = { λ a. a.pairs.items };

    ghost invariant = { λ a. IsDistinct a.pairs.items };
}

impl Bindings {
    /// Nothing is put for a variable. It takes no memory.
    pub fn empty(alloc: Global) -> Bindings
        ensures { result ≡ [] }
    {
        Bindings {
            pairs: Vec::new(alloc),
        }
    }

    /// Nothing is put for a variable, and there is room for so many.
    fn with_room(alloc: Global, count: usize) -> Result<Bindings, NoMemory>
        ensures { IfOk result (λ s. s ≡ []) }
    {
        let pairs = Vec::with_capacity(alloc, count)?;
        Ok(Bindings { pairs })
    }

    /// What is put for the variable.
    pub fn get(&self, variable: u64) -> Option<&Term>
        ensures { option_copied result ≡ bound self.now variable }
    {
        match place(&self.pairs, variable) {
            Some(index) => Some(&self.pairs[index].1),
            None => None,
        }
    }

    /// The term where it is no variable that has one, and else what is put for it. So the same stands at its root as at the
    /// root of the term with what is put for variables.
    pub fn at_root<'a>(&'a self, term: TermRef<'a>) -> TermRef<'a>
        ensures { view_of (seen result) ≡ view_of (substitute (image self.now) (seen term.entry)) }
    {
        let TermView::Var(variable) = term.view() else {
            return term;
        };
        match self.get(variable) {
            Some(put) => put.whole(),
            None => term,
        }
    }

    /// How many variables have a term.
    pub fn len(&self) -> usize
        ensures count { result ≡ length self.now }
        ensures distinct { IsDistinct self.now }
    {
        self.pairs.len()
    }

    /// A variable and its term, by its place, counted from 0.
    pub fn pair(&self, index: usize) -> (u64, &Term)
        requires { index < length self.now }
        ensures { slice_get self.now index ≡ Some (result.0, result.1.now) }
    {
        let pair = &self.pairs[index];
        (pair.0, &pair.1)
    }

    /// The same pairs, in memory of their own.
    pub fn copy(&self, alloc: Global) -> Result<Bindings, NoMemory>
        ensures { IfOk result (λ s. s ≡ self.now) }
    {
        let mut copies = Bindings::with_room(alloc, self.len())?;
        for index in 0..self.len() {
            let (variable, term) = self.pair(index);
            let copy = term.copy(alloc)?;
            copies.bind(variable, copy)?;
        }
        Ok(copies)
    }

    /// Puts a term for a variable that has none. Where it fails, nothing has changed.
    pub fn bind(&mut self, variable: u64, term: Term) -> Result<(), NoMemory>
        requires { bound self.old variable ≡ None }
        ensures ok { OnOk result (self.new ≡ self.old ++ (variable, term) ∷ []) }
        ensures err { OnErr result (self.new ≡ self.old) }
    {
        self.pairs.push((variable, term))?;
        Ok(())
    }

    /// Puts a term for the variable, in the place of the one that it may have.
    pub fn set(&mut self, variable: u64, term: Term) -> Result<(), NoMemory>
        ensures { OnOk result (image self.new ≡ image_with variable term (image self.old)) }
    {
        match place(&self.pairs, variable) {
            Some(index) => {
                self.pairs[index].1 = term;
                Ok(())
            }
            None => self.bind(variable, term),
        }
    }
}

/// Where the variable stands in the pairs.
fn place(pairs: &[(u64, Term)], variable: u64) -> Option<usize>
    ensures { MatchOption result (bound pairs.now variable ≡ None) (λ i. IsPlaceOf pairs.now variable i) }
{
    for index in 0..pairs.len() {
        if pairs[index].0 == variable {
            return Some(index);
        }
    }
    None
}

/// What is put for a variable takes its place. All other leaves stay.
impl Replacement for Bindings {
    ghost use Rattle.dps_terms.specs.Bindings.{image};
    ghost use Rattle.dps_terms.specs.Replace.{variables_to};

    ghost becomes = { λ by. variables_to (image by) };

    fn put(&self, leaf: TermLeaf, stack: &mut TermStack) -> Result<(), NoMemory> {
        let TermLeaf::Var(number) = leaf else {
            return stack.push_leaf(leaf);
        };
        match self.get(number) {
            Some(term) => stack.push(term.whole()),
            None => stack.push_leaf(leaf),
        }
    }
}

/// The same pairs as a substitution, in memory of its own.
pub fn substitution(alloc: Global, bindings: &Bindings) -> Result<Subst, NoMemory>
    ensures { IfOk result (λ s. s ≡ bindings.now) }
{
    let mut copies = Subst::empty(alloc);
    for index in 0..bindings.len() {
        let (variable, term) = bindings.pair(index);
        let copy = term.copy(alloc)?;
        copies.bind(variable, copy)?;
    }
    Ok(copies)
}

/// What `by` binds is put besides, in the terms that were put before too. It binds no other variables than these.
pub(crate) fn then(
    alloc: Global,
    before: &Bindings,
    by: &Subst,
    variables: &[u64],
) -> Result<Bindings, NoMemory>
    requires { (n : ℕ) (t : Tree) → bound by.now n ≡ Some t → Contains variables.now n }
    ensures { IfOk result (λ s. image s ≡ (λ x. substitute (image by.now) (image before.now x))) }
{
    let mut after = instances(alloc, before, by, variables.len())?;
    for variable in variables {
        bind_once(alloc, &mut after, by, *variable)?;
    }
    Ok(after)
}

/// The terms with what `by` binds in the place of its variables, and room for so many more.
fn instances(
    alloc: Global,
    before: &Bindings,
    by: &Subst,
    more: usize,
) -> Result<Bindings, NoMemory>
    ensures { IfOk result (λ s. s ≡ map (under (image by.now)) before.now) }
{
    let mut after = Bindings::with_room(alloc, before.len().saturating_add(more))?;
    for index in 0..before.len() {
        let (variable, term) = before.pair(index);
        let instance = term.subst(alloc, by)?;
        after.bind(variable, instance)?;
    }
    Ok(after)
}

/// Puts what `by` binds for the variable, unless it has a term.
fn bind_once(alloc: Global, after: &mut Bindings, by: &Subst, variable: u64) -> Result<(), NoMemory>
    ensures { OnOk result (IsOnceBound by.now variable after.old after.new) }
{
    if after.get(variable).is_some() {
        return Ok(());
    }
    let Some(term) = by.get(variable) else {
        return Ok(());
    };
    let copy = term.copy(alloc)?;
    after.bind(variable, copy)
}

/// The term is put for the variable besides, in the terms that were put before too.
pub fn put(
    alloc: Global,
    before: &Bindings,
    variable: u64,
    term: Term,
) -> Result<Bindings, NoMemory>
    ensures { IfOk result (λ s. image s ≡ then_put variable term (image before.now)) }
{
    let by = single(alloc, variable, term)?;
    then(alloc, before, &by, &[variable])
}

/// The substitution that binds this variable alone.
pub(crate) fn single(alloc: Global, variable: u64, term: Term) -> Result<Subst, NoMemory>
    ensures { IfOk result (λ s. s ≡ (variable, term) ∷ []) }
{
    let mut by = Subst::empty(alloc);
    by.bind(variable, term)?;
    Ok(by)
}
