//! The texts of unifiers of two rules.
ghost use Rattle.std.specs.Prelude.{◌≡◌, ◌+◌, ◌++◌, map, string_bytes, IfOk, OnOk};
ghost use Rattle.dps_theory.specs.Overlaps.{HasSmallVariables};
ghost use Rattle.dps_rules.specs.Bindings.{variable_text, numbered_text, both_variables, listed_text, bindings_text};
ghost use Rattle.dps_rules.specs.Naming.{leaf_in, binding_in, bindings_in};

use dps_names::WrittenRule;
use dps_signature::{LeafWriter, Signature, write_term};
use dps_terms::{NoMemory, Subst, Term, TermLeaf};
use std::alloc::{AllocError, Global};

/// How variables are written: those of the second rule are raised.
#[derive(Clone, Copy)]
struct Naming<'a> {
    signature: &'a Signature,
    first: &'a WrittenRule,
    second: &'a WrittenRule,
    by: u64,
}

/// The list of bindings of a unifier of the two rules.
pub(crate) fn bindings_text(
    alloc: Global,
    signature: &Signature,
    first: &WrittenRule,
    second: &WrittenRule,
    unifier: &Subst,
) -> Result<String, NoMemory>
    requires { HasSmallVariables first.now.rule }
    ensures { IfOk result (λ text. string_bytes text ≡ bindings_text signature.now first.now second.now unifier.now) }
{
    let by = first.rule.room(alloc)?;
    let naming = Naming {
        signature,
        first,
        second,
        by,
    };
    let numbers = both_variables(alloc, naming)?;
    let texts = binding_texts(alloc, naming, unifier, &numbers)?;
    listed_text(alloc, &texts)
}

/// The variables of both left sides.
fn both_variables(alloc: Global, naming: Naming<'_>) -> Result<Vec<u64>, NoMemory>
    ensures { IfOk result (λ v. v.items ≡ both_variables naming.entry.by naming.entry.first.now naming.entry.second.now) }
{
    let first = naming.first;
    let second = naming.second;
    let mut numbers = first.rule.left.vars(alloc)?;
    let raised = second.rule.left.vars(alloc)?;
    push_raised(&mut numbers, &raised, naming.by)?;
    Ok(numbers)
}

/// Adds the variables, raised by so much.
fn push_raised(numbers: &mut Vec<u64>, variables: &[u64], by: u64) -> Result<(), NoMemory>
    ensures { OnOk result (numbers.new.items ≡ numbers.old.items ++ map (λ n. n + by) variables.now) }
{
    for variable in variables {
        let Some(number) = variable.checked_add(by) else {
            return Err(AllocError);
        };
        numbers.push(number)?;
    }
    Ok(())
}

/// The texts of the bindings of these variables.
fn binding_texts(
    alloc: Global,
    naming: Naming<'_>,
    unifier: &Subst,
    numbers: &[u64],
) -> Result<Vec<String>, NoMemory>
    ensures { IfOk result (λ v. map string_bytes v.items ≡ bindings_in naming.entry unifier.now numbers.now) }
{
    let mut texts = Vec::new(alloc);
    for number in numbers {
        if let Some(term) = unifier.get(*number) {
            texts.push(binding_text(alloc, naming, *number, term)?)?;
        }
    }
    Ok(texts)
}

/// A variable by its rule and its text, and each other leaf as in every term.
impl<'a> LeafWriter for Naming<'a> {
    ghost leaf_bytes = { leaf_in };

    fn write_leaf(&self, leaf: TermLeaf, text: &mut String) -> Result<(), NoMemory> {
        match leaf {
            TermLeaf::Var(number) => write_variable(text, *self, number),
            _ => self.signature.write_leaf(leaf, text),
        }
    }
}

/// `1.x=t`
fn binding_text(
    alloc: Global,
    naming: Naming<'_>,
    number: u64,
    term: &Term,
) -> Result<String, NoMemory>
    ensures { IfOk result (λ text. string_bytes text ≡ binding_in naming.entry number term.now) }
{
    let mut text = String::new(alloc);
    write_variable(&mut text, naming, number)?;
    text.push_str("=")?;
    write_term(alloc, &mut text, term.whole(), naming.signature, &naming)?;
    Ok(text)
}

/// The texts with commas between them.
fn listed_text(alloc: Global, texts: &[String]) -> Result<String, NoMemory>
    ensures { IfOk result (λ text. string_bytes text ≡ listed_text (map string_bytes texts.now)) }
{
    let Some((first, rest)) = texts.split_first() else {
        return String::from_str(alloc, "nothing");
    };
    let mut text = String::from_str(alloc, first.as_str())?;
    for next in rest {
        text.push_str(", ")?;
        text.push_str(next.as_str())?;
    }
    Ok(text)
}

/// `1.x` or `2.x`
fn write_variable(text: &mut String, naming: Naming<'_>, number: u64) -> Result<(), NoMemory>
    ensures { OnOk result (string_bytes text.new ≡ string_bytes text.old ++ numbered_text naming.entry.by naming.entry.first.now naming.entry.second.now number) }
{
    if number < naming.by {
        text.push_str("1.")?;
        text.push_str(variable_text(naming.first, number))
    } else {
        text.push_str("2.")?;
        text.push_str(variable_text(naming.second, number - naming.by))
    }
}

fn variable_text(rule: &WrittenRule, number: u64) -> &str
    ensures { result.now ≡ variable_text rule.now number }
{
    match rule.variables.get(number as usize) {
        Some(text) => text.as_str(),
        None => "",
    }
}
