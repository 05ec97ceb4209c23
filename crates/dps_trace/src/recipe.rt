//! Recipes of texts.
ghost use Rattle.std.specs.Prelude.{◌≡◌, ◌↔◌, IfOk, OnOk, IfSome, Some, length, option_map};
ghost use Rattle.dps_trace.specs.Scanning.{start, closing, comma_in, opening_in, with_word, with_sign, with_leaf, applied, finished, recipe_read, is_sign};
ghost use Rattle.dps_trace.specs.Told.{told};
ghost use Rattle.dps_terms.specs.Leaves.{leaf_seen};

use crate::words::{leaf_read, symbol_read};
use dps_signature::Signature;
use dps_terms::{NoMemory, Sym, Term, TermLeaf, TermStack};
use std::alloc::{AllocError, Global};
use std::marker::Model;

/// What of a recipe was read, from its end on.
#[derive(Drop)]
struct Reading {
    // of each open bracket, the innermost one last, how many terms begin behind the place of reading
    brackets: Vec<u32>,
    // how many arguments the symbol has whose text comes next
    arity: u32,
    // the terms that were read whole, and how many they are
    terms: TermStack,
    height: usize,
}

impl Model for Reading {
    ghost use Rattle.std.specs.Prelude.{◌≡◌, length, reverse};
    ghost use Rattle.dps_trace.specs.Scanning.{Reading};
    ghost use Rattle.dps_trace.specs.StoredReading.{reading_code};

    ghost Value = { Reading };

    ghost coded = { reading_code };

    ghost view = { λ a. record { brackets = reverse a.brackets.items; arity = a.arity; terms = a.terms } };

    ghost invariant = { λ a. a.height ≡ length a.terms };
}

impl Reading {
    fn start(alloc: Global) -> Reading
        ensures { result ≡ start }
    {
        Reading {
            brackets: Vec::new(alloc),
            arity: 0,
            terms: TermStack::empty(alloc),
            height: 0,
        }
    }

    /// A bracket closes. Its last term comes next.
    fn close_bracket(&mut self) -> Result<(), NoMemory>
        ensures { OnOk result (self.new ≡ closing self.old) }
    {
        self.brackets.push(1)?;
        self.arity = 0;
        Ok(())
    }

    /// A comma. False where it stands in no bracket, or behind eight terms.
    fn pass_comma(&mut self) -> Result<bool, NoMemory>
        ensures { IfOk result (λ read. told read self.new ≡ comma_in self.old self.old.brackets) }
    {
        let Some(count) = self.brackets.pop() else {
            return Ok(false);
        };
        if count >= 8 {
            return Ok(false);
        }
        self.brackets.push(count + 1)?;
        self.arity = 0;
        Ok(true)
    }

    /// A bracket opens. False where none was closed.
    fn open_bracket(&mut self) -> bool
        ensures { told result self.new ≡ opening_in self.old self.old.brackets }
    {
        let Some(count) = self.brackets.pop() else {
            return false;
        };
        self.arity = count;
        true
    }

    /// Puts the symbol over as many terms as it has arguments. False where there are not so many.
    fn apply(&mut self, sym: Sym) -> Result<bool, NoMemory>
        ensures { IfOk result (λ read. told read self.new ≡ applied self.old (Some sym.number)) }
    {
        let arity = self.arity;
        if arity > 8 || arity as usize > self.height {
            return Ok(false);
        }
        let Some(height) = (self.height - arity as usize).checked_add(1) else {
            return Err(AllocError);
        };
        self.terms.apply(sym, arity)?;
        self.height = height;
        self.arity = 0;
        Ok(true)
    }

    /// Puts the leaf in front.
    fn push_leaf(&mut self, leaf: TermLeaf) -> Result<(), NoMemory>
        ensures { OnOk result (self.new ≡ with_leaf self.old (leaf_seen leaf)) }
    {
        let Some(height) = self.height.checked_add(1) else {
            return Err(AllocError);
        };
        self.terms.push_leaf(leaf)?;
        self.height = height;
        self.arity = 0;
        Ok(())
    }

    /// Reads a word. False where it means nothing there.
    #[tactic(auto, using(crate::proofs::ReadWord::for_read_word))]
    fn read_word(&mut self, signature: &Signature, word: &[u8]) -> Result<bool, NoMemory>
        ensures { IfOk result (λ read. told read self.new ≡ with_word signature.now word.now self.old) }
    {
        if let Some(sym) = symbol_read(signature, word, self.arity) {
            return self.apply(sym);
        }
        if self.arity != 0 {
            return Ok(false);
        }
        let Some(leaf) = leaf_read(signature, word) else {
            return Ok(false);
        };
        self.push_leaf(leaf)?;
        Ok(true)
    }

    /// Reads a word, and the sign before it. False where one of them may not stand there.
    fn read_sign(&mut self, signature: &Signature, sign: u8, word: &[u8]) -> Result<bool, NoMemory>
        ensures { IfOk result (λ read. told read self.new ≡ with_sign signature.now sign word.now self.old) }
    {
        if sign == b')' {
            self.close_bracket()?;
            return Ok(true);
        }
        if !self.read_word(signature, word)? {
            return Ok(false);
        }
        if sign == b',' {
            return self.pass_comma();
        }
        Ok(self.open_bracket())
    }

    /// The only term, where no bracket is open.
    fn finish(self) -> Option<Term>
        ensures { result ≡ finished (Some self) }
    {
        if self.height != 1 || !self.brackets.is_empty() {
            return None;
        }
        Some(self.terms.into_term())
    }
}

/// A bracket or a comma.
fn is_sign(byte: u8) -> bool
    ensures { result ≡ is_sign byte }
{
    byte == b')' || byte == b',' || byte == b'('
}

/// The recipe that alone may have this text. It is read from the text's end on, so a symbol comes behind its arguments, in
/// time by the length of the text, and with no stack by depth.
#[tactic(auto, using(crate::proofs::Backward::for_recipe_read))]
pub(crate) fn recipe_read(
    alloc: Global,
    signature: &Signature,
    text: &[u8],
) -> Result<Option<Term>, NoMemory>
    ensures { IfOk result (λ recipe. recipe ≡ recipe_read signature.now text.now) }
{
    let mut reading = Reading::start(alloc);
    // what is before the last sign that was read, and of it what is before the word
    let mut front = text;
    let mut unread = text;
    while let Some((byte, before)) = unread.split_last() {
        if is_sign(*byte) {
            let (_, word) = front.split_at(unread.len());
            if !reading.read_sign(signature, *byte, word)? {
                return Ok(None);
            }
            front = before;
        }
        unread = before;
    }
    if !reading.read_word(signature, front)? {
        return Ok(None);
    }
    Ok(reading.finish())
}
