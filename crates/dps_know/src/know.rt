//! The attacker's knowledge.
ghost use Rattle.std.specs.Prelude.{◌≡◌, ◌↔◌, ◌∷◌, ◌++◌, [], length, map, filter_map, Some, None, IfOk, OnOk, OnErr, IsTrue};
ghost use Rattle.dps_know.specs.declared.know.Entry.{Entry};
ghost use Rattle.std.specs.Option.{option_map};
ghost use Rattle.std.specs.List.{cons_option};
ghost use Rattle.dps_terms.specs.Bindings.{image};
ghost use Rattle.dps_terms.specs.Tree.{IsSubterm};
ghost use Rattle.dps_terms.specs.Replace.{substitute};
ghost use Rattle.dps_know.specs.Know.{entry_at, entry_under, know_under, IsThere, IsRecorded, with_entry_at, compositions, IsNormal, HasCompositionIn, recipe_of};

use crate::recipes::{resolved, with_recipes};
use crate::subterms::is_subterm;
use dps_terms::{NoMemory, Subst, Term};
use std::alloc::Global;
use std::marker::Model;

/// A term that the attacker has and could not build before.
#[derive(Drop)]
pub struct Entry {
    /// What gives it.
    pub recipe: Term,
    /// The length of the frame at which it was found.
    pub level: u32,
    /// A tree with a symbol at its root that gives it too, where one is recorded.
    pub composition: Option<Term>,
}

/// The entries, counted from 1, and the tree of each handle that was examined.
#[derive(Drop)]
pub struct Know {
    entries: Vec<Entry>,
    handles: Vec<Term>,
}

impl Model for Know {
    ghost use Rattle.dps_know.specs.Know.{Knowledge};
    ghost use Rattle.dps_know.specs.Coding.{knowledge_code};

    ghost Value = { Knowledge };

    ghost coded = { knowledge_code };

    ghost view = { λ a. record { entries = a.entries.items; handles = a.handles.items } };
}

/// What is known. These calls take no memory.
impl Know {
    /// No entries, and no handles.
    pub fn new(alloc: Global) -> Know
        ensures { result ≡ record { entries = []; handles = [] } }
    {
        Know {
            entries: Vec::new(alloc),
            handles: Vec::new(alloc),
        }
    }

    /// The number of entries.
    pub fn entries(&self) -> u64
        ensures { result ≡ length self.now.entries }
    {
        self.entries.len() as u64
    }

    /// The entry with this number, counted from 1. It has to be there.
    pub fn entry(&self, entry: u64) -> &Entry
        requires { IsThere self.now entry }
        ensures { entry_at self.now entry ≡ Some result.now }
    {
        &self.entries[entry as usize - 1]
    }

    /// The level of the entry. It has to be there.
    pub fn level(&self, entry: u64) -> u32
        requires { IsThere self.now entry }
        ensures { option_map (λ e. e.level) (entry_at self.now entry) ≡ Some result }
    {
        self.entry(entry).level
    }

    /// Whether a composition is recorded for the entry. It has to be there.
    pub fn recorded(&self, entry: u64) -> bool
        requires { IsThere self.now entry }
        ensures { IsTrue result ↔ IsRecorded self.now entry }
    {
        self.entry(entry).composition.is_some()
    }

    /// The trees of the handles, in order.
    pub fn handles(&self) -> &[Term]
        ensures { result.now ≡ self.now.handles }
    {
        &self.handles
    }

    /// Whether no subtree is a recorded composition.
    pub fn normal(&self, tree: &Term) -> bool
        ensures { IsTrue result ↔ IsNormal (compositions self.now) tree.now }
    {
        holds_none(&self.entries, tree)
    }
}

/// How it grows and changes. Where a call fails for want of memory, nothing has changed.
impl Know {
    /// The same knowledge, in memory of its own.
    pub fn copy(&self, alloc: Global) -> Result<Know, NoMemory>
        ensures { IfOk result (λ k. k ≡ self.now) }
    {
        let entries = copies_of_entries(alloc, &self.entries)?;
        let handles = copies(alloc, &self.handles)?;
        Ok(Know { entries, handles })
    }

    /// Adds an entry without a composition, and gives its number.
    pub fn add(&mut self, recipe: Term, level: u32) -> Result<u64, NoMemory>
        ensures number { IfOk result (λ n. n ≡ length self.new.entries) }
        ensures ok { OnOk result (self.new ≡ record { entries = self.old.entries ++ record { recipe = recipe; level = level; composition = None } ∷ []; handles = self.old.handles }) }
        ensures err { OnErr result (self.new ≡ self.old) }
    {
        self.entries.push(Entry {
            recipe,
            level,
            composition: None,
        })?;
        Ok(self.entries.len() as u64)
    }

    /// Records a composition for an entry that has none. It takes no memory.
    pub fn record(&mut self, entry: u64, composition: Term)
        requires there { IsThere self.old entry }
        requires none { ¬ IsRecorded self.old entry }
        ensures { (e : Entry) → entry_at self.old entry ≡ Some e → self.new ≡ with_entry_at self.old entry (record e { composition = Some composition }) }
    {
        self.entries[entry as usize - 1].composition = Some(composition);
    }

    /// Adds the tree of the next handle.
    pub fn set_ax(&mut self, tree: Term) -> Result<(), NoMemory>
        ensures ok { OnOk result (self.new ≡ record { entries = self.old.entries; handles = self.old.handles ++ tree ∷ [] }) }
        ensures err { OnErr result (self.new ≡ self.old) }
    {
        self.handles.push(tree)?;
        Ok(())
    }

    /// The recorded compositions, in order, with what is bound in the place of the variables.
    pub fn compositions(&self, alloc: Global, by: &Subst) -> Result<Vec<Term>, NoMemory>
        ensures { IfOk result (λ v. v.items ≡ map (substitute (image by.now)) (compositions self.now)) }
    {
        compositions_under(alloc, &self.entries, by)
    }

    /// Puts what is bound in the place of the variables, in all trees.
    pub fn apply(&mut self, alloc: Global, by: &Subst) -> Result<(), NoMemory>
        ensures ok { OnOk result (self.new ≡ know_under (image by.now) self.old) }
        ensures err { OnErr result (self.new ≡ self.old) }
    {
        let entries = entries_under(alloc, &self.entries, by)?;
        let handles = trees_under(alloc, &self.handles, by)?;
        self.entries = entries;
        self.handles = handles;
        Ok(())
    }

    /// The tree with the entries' recipes in their places, again and again until no entry is left.
    ///
    /// An entry of a recipe that does not have a smaller number than the recipe's own stays.
    pub fn recipe(&self, alloc: Global, tree: &Term) -> Result<Term, NoMemory>
        ensures { IfOk result (λ t. t ≡ recipe_of self.now tree.now) }
    {
        let recipes = resolved(alloc, &self.entries)?;
        with_recipes(alloc, &recipes, tree.whole())
    }
}

/// Whether no composition that is recorded for one of the entries stands in the tree.
fn holds_none(entries: &[Entry], tree: &Term) -> bool
    ensures { IsTrue result ↔ IsNormal (filter_map (λ e. e.composition) entries.now) tree.now }
{
    for entry in entries {
        if stands_in(entry, tree) {
            return false;
        }
    }
    true
}

/// Whether a composition is recorded for the entry that stands in the tree.
fn stands_in(entry: &Entry, tree: &Term) -> bool
    ensures { IsTrue result ↔ HasCompositionIn entry.now tree.now }
{
    match &entry.composition {
        Some(composition) => is_subterm(composition.whole(), tree.whole()),
        None => false,
    }
}

fn copies_of_entries(alloc: Global, entries: &[Entry]) -> Result<Vec<Entry>, NoMemory>
    ensures { IfOk result (λ v. v.items ≡ entries.now) }
{
    let mut made = Vec::with_capacity(alloc, entries.len())?;
    for entry in entries {
        let copy = copy_of_entry(alloc, entry)?;
        made.push(copy)?;
    }
    Ok(made)
}

fn copy_of_entry(alloc: Global, entry: &Entry) -> Result<Entry, NoMemory>
    ensures { IfOk result (λ e. e ≡ entry.now) }
{
    let recipe = entry.recipe.copy(alloc)?;
    let composition = match &entry.composition {
        Some(tree) => Some(tree.copy(alloc)?),
        None => None,
    };
    Ok(Entry {
        recipe,
        level: entry.level,
        composition,
    })
}

fn copies(alloc: Global, trees: &[Term]) -> Result<Vec<Term>, NoMemory>
    ensures { IfOk result (λ v. v.items ≡ trees.now) }
{
    let mut made = Vec::with_capacity(alloc, trees.len())?;
    for tree in trees {
        let copy = tree.copy(alloc)?;
        made.push(copy)?;
    }
    Ok(made)
}

/// The entries with what is bound in the place of the variables.
fn entries_under(alloc: Global, entries: &[Entry], by: &Subst) -> Result<Vec<Entry>, NoMemory>
    ensures { IfOk result (λ v. v.items ≡ map (entry_under (image by.now)) entries.now) }
{
    let mut made = Vec::with_capacity(alloc, entries.len())?;
    for entry in entries {
        let one = entry_with(alloc, entry, by)?;
        made.push(one)?;
    }
    Ok(made)
}

fn entry_with(alloc: Global, entry: &Entry, by: &Subst) -> Result<Entry, NoMemory>
    ensures { IfOk result (λ e. e ≡ entry_under (image by.now) entry.now) }
{
    let recipe = entry.recipe.subst(alloc, by)?;
    let composition = match &entry.composition {
        Some(tree) => Some(tree.subst(alloc, by)?),
        None => None,
    };
    Ok(Entry {
        recipe,
        level: entry.level,
        composition,
    })
}

/// The trees with what is bound in the place of the variables.
fn trees_under(alloc: Global, trees: &[Term], by: &Subst) -> Result<Vec<Term>, NoMemory>
    ensures { IfOk result (λ v. v.items ≡ map (substitute (image by.now)) trees.now) }
{
    let mut made = Vec::with_capacity(alloc, trees.len())?;
    for tree in trees {
        let one = tree.subst(alloc, by)?;
        made.push(one)?;
    }
    Ok(made)
}

/// The recorded compositions with what is bound in the place of the variables.
fn compositions_under(alloc: Global, entries: &[Entry], by: &Subst) -> Result<Vec<Term>, NoMemory>
    ensures { IfOk result (λ v. v.items ≡ map (substitute (image by.now)) (filter_map (λ e. e.composition) entries.now)) }
{
    let mut made = Vec::new(alloc);
    for entry in entries {
        add_composition(alloc, &mut made, entry, by)?;
    }
    Ok(made)
}

fn add_composition(
    alloc: Global,
    made: &mut Vec<Term>,
    entry: &Entry,
    by: &Subst,
) -> Result<(), NoMemory>
    ensures { OnOk result (made.new.items ≡ made.old.items ++ map (substitute (image by.now)) (cons_option entry.now.composition [])) }
{
    if let Some(tree) = &entry.composition {
        let one = tree.subst(alloc, by)?;
        made.push(one)?;
    }
    Ok(())
}

/// Whether none of the recorded compositions is a subtree.
pub fn is_normal(recorded: &[Term], tree: &Term) -> bool
    ensures { IsTrue result ↔ IsNormal recorded.now tree.now }
{
    for composition in recorded {
        if is_part(composition, tree) {
            return false;
        }
    }
    true
}

/// Whether the part is a subtree.
fn is_part(part: &Term, tree: &Term) -> bool
    ensures { IsTrue result ↔ IsSubterm part.now tree.now }
{
    is_subterm(part.whole(), tree.whole())
}
