//! The texts of terms.
ghost use Rattle.std.specs.Prelude.{◌≡◌, ◌++◌, ◌∷◌, ℕ, List, length, take, drop, reverse, string_bytes, IfOk, OnOk};
ghost use Rattle.dps_terms.specs.Tree.{Leaf, Tree};
ghost use Rattle.dps_terms.specs.Leaves.{leaf_seen};
ghost use Rattle.dps_terms.specs.Seen.{seen};
ghost use Rattle.dps_terms.specs.Views.{arguments};
ghost use Rattle.dps_signature.specs.Signature.{Signature};
ghost use Rattle.dps_signature.specs.Text.{term_text as text_of, text_with, leaf_text, root_text, symbol_text, name_text, opens_bracket};
ghost use Rattle.dps_signature.specs.Unwritten.{IsWriting, IsBehindTerm, IsBehindRoot, leaf_shown};

use crate::Signature;
use dps_terms::{NoMemory, PublicName, Sym, TermLeaf, TermRef, TermView};
use std::alloc::Global;

/// How the leaves of terms are written.
pub trait LeafWriter {
    /// The text of a leaf.
    ghost leaf_bytes: { Self → Leaf → List ℕ };

    /// Writes the leaf behind what is there.
    fn write_leaf(&self, leaf: TermLeaf, text: &mut String) -> Result<(), NoMemory>
        ensures { OnOk result (string_bytes text.new ≡ string_bytes text.old ++ leaf_bytes self.now (leaf_seen leaf)) };
}

/// The term's text.
///
/// A declared name is written by its text, and a symbol by its text with its arguments in brackets behind it, as in
/// `f(t,u)`, without blanks. A symbol without arguments has no brackets, and a tuple's symbol `(n)` is not written:
/// `(t,u)`. The other leaves are a mark and a number: `axj` for a handle, `@k` for one of the attacker's own names, `#n`
/// for a private name, `?n` for a variable, `en` for an entry and `!n` for a rigid name. For a symbol or a declared name
/// that is not in the signature nothing is written.
pub fn term_text(
    alloc: Global,
    term: TermRef<'_>,
    signature: &Signature,
) -> Result<String, NoMemory>
    ensures { IfOk result (λ text. string_bytes text ≡ text_of signature.now (seen term.entry)) }
{
    let mut text = String::new(alloc);
    write_term(alloc, &mut text, term, signature, signature)?;
    Ok(text)
}

/// Writes the term behind what is there, as `term_text` does, but with its leaves as the writer writes them. It takes time
/// by the lengths of both, and no stack by depth.
pub fn write_term<W: LeafWriter>(
    alloc: Global,
    text: &mut String,
    term: TermRef<'_>,
    signature: &Signature,
    leaves: &W,
) -> Result<(), NoMemory>
    ensures { OnOk result (string_bytes text.new ≡ string_bytes text.old ++ text_with (W.leaf_bytes leaves.now) signature.now (seen term.entry)) }
{
    // Of each open bracket, the outermost one first, how many arguments are not written whole.
    let mut brackets = Vec::new(alloc);
    for node in 0..term.node_count() {
        write_node(text, &mut brackets, term.subterm(node), signature, leaves)?;
    }
    Ok(())
}

/// Writes the root of the term that is in turn, and the brackets and commas behind it.
fn write_node<W: LeafWriter>(
    text: &mut String,
    brackets: &mut Vec<u32>,
    term: TermRef<'_>,
    signature: &Signature,
    leaves: &W,
) -> Result<(), NoMemory>
    ensures { (ts : List Tree) (whole : List ℕ) → arguments (seen term.entry) ≡ take (length (arguments (seen term.entry))) ts
        → IsWriting (W.leaf_bytes leaves.now) signature.now (string_bytes text.old) (reverse brackets.old.items) (seen term.entry ∷ drop (length (arguments (seen term.entry))) ts) whole
        → OnOk result (IsWriting (W.leaf_bytes leaves.now) signature.now (string_bytes text.new) (reverse brackets.new.items) ts whole) }
{
    match term.view() {
        TermView::App(sym) => {
            write_root(text, sym, signature)?;
            write_below_root(text, brackets, term.arity())
        }
        view => {
            leaves.write_leaf(shown_leaf(view), text)?;
            write_behind_term(text, brackets)
        }
    }
}

/// The leaf that is shown. For a symbol it is some leaf.
fn shown_leaf(view: TermView) -> TermLeaf
    ensures { leaf_seen result ≡ leaf_shown view }
{
    match view {
        TermView::App(_) => TermLeaf::Var(0),
        TermView::Public(name) => TermLeaf::Public(name),
        TermView::Private(number) => TermLeaf::Private(number),
        TermView::Var(number) => TermLeaf::Var(number),
        TermView::Ax(number) => TermLeaf::Ax(number),
        TermView::Entry(number) => TermLeaf::Entry(number),
        TermView::Rigid(number) => TermLeaf::Rigid(number),
    }
}

/// Opens the bracket of the arguments, of which there are so many. Where there are none, the term is written.
fn write_below_root(text: &mut String, brackets: &mut Vec<u32>, arity: u32) -> Result<(), NoMemory>
    ensures { (leaves : Leaf → List ℕ) (signature : Signature) (ts : List Tree) (whole : List ℕ)
        → IsBehindRoot leaves signature (string_bytes text.old) (reverse brackets.old.items) arity ts whole
        → OnOk result (IsWriting leaves signature (string_bytes text.new) (reverse brackets.new.items) ts whole) }
{
    if arity == 0 {
        return write_behind_term(text, brackets);
    }
    brackets.push(arity)?;
    text.push_str("(")
}

/// Closes the brackets of which the last argument is written, and goes on to the next argument of the first one that is
/// left, where there is one.
fn write_behind_term(text: &mut String, brackets: &mut Vec<u32>) -> Result<(), NoMemory>
    ensures { (leaves : Leaf → List ℕ) (signature : Signature) (ts : List Tree) (whole : List ℕ) → IsBehindTerm leaves signature (string_bytes text.old) (reverse brackets.old.items) ts whole
        → OnOk result (IsWriting leaves signature (string_bytes text.new) (reverse brackets.new.items) ts whole) }
{
    while let Some(left) = brackets.pop() {
        if left > 1 {
            brackets.push(left - 1)?;
            return text.push_str(",");
        }
        text.push_str(")")?;
    }
    Ok(())
}

/// A symbol's text, and nothing for a tuple.
fn write_root(text: &mut String, sym: Sym, signature: &Signature) -> Result<(), NoMemory>
    ensures { OnOk result (string_bytes text.new ≡ string_bytes text.old ++ root_text signature.now sym) }
{
    let name = known_symbol_text(signature, sym);
    if is_bracketed(name) {
        return Ok(());
    }
    text.push_str(name)
}

/// The symbol's text, and the empty text where there is no such symbol.
fn known_symbol_text(signature: &Signature, sym: Sym) -> &str
    ensures { result.now ≡ symbol_text signature.now sym }
{
    if sym.number < signature.symbol_count() {
        signature.symbol_text(sym)
    } else {
        ""
    }
}

/// The declared name's text, and the empty text where there is no such name.
fn known_name_text(signature: &Signature, number: u32) -> &str
    ensures { result.now ≡ name_text signature.now number }
{
    if number < signature.name_count() {
        signature.name_text(number)
    } else {
        ""
    }
}

/// Whether the text is that of a tuple's symbol, which alone begins with a bracket.
fn is_bracketed(name: &str) -> bool
    ensures { result ≡ opens_bracket name.now }
{
    match name.as_bytes() {
        [first, ..] => *first == b'(',
        [] => false,
    }
}

/// A declared name by its text, and each other leaf by a mark and its number.
impl LeafWriter for Signature {
    ghost leaf_bytes = { leaf_text };

    fn write_leaf(&self, leaf: TermLeaf, text: &mut String) -> Result<(), NoMemory> {
        match leaf {
            TermLeaf::Public(PublicName::Declared(number)) => {
                text.push_str(known_name_text(self, number))
            }
            TermLeaf::Public(PublicName::At(number)) => write!(text, "@{number}"),
            TermLeaf::Private(number) => write!(text, "#{number}"),
            TermLeaf::Var(number) => write!(text, "?{number}"),
            TermLeaf::Ax(number) => write!(text, "ax{number}"),
            TermLeaf::Entry(number) => write!(text, "e{number}"),
            TermLeaf::Rigid(number) => write!(text, "!{number}"),
        }
    }
}
