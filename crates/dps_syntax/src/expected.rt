//! What is expected next.

ghost use Rattle.std.specs.Prelude.{◌≡◌, ◌+◌, ◌≤◌, [], ◌∷◌, ◌++◌, length, true, Some, None, OnOk, IfOk, MatchOption, MatchBool};
ghost use Rattle.dps_syntax.specs.Expected.{Awaits, Refuses, Took, Ended};
ghost use Rattle.dps_syntax.specs.Calm.{calm, held};

use crate::grammar::{
    Mark, Symbol, Word, alternatives_of, are_begun, chosen_of, continuation_of, is_taken,
    own_depth_of,
};
use std::alloc::{AllocError, Global};
use std::marker::Model;

/// The symbols that are expected, the next one first.
#[derive(Drop)]
pub(crate) struct Expected {
    /// The next one last.
    symbols: Vec<Symbol>,
    /// How many counted productions are open.
    depth: usize,
}

impl Model for Expected {
    ghost use Rattle.std.specs.Prelude.{◌≡◌, List, reverse};
    ghost use Rattle.dps_syntax.specs.declared.grammar.Symbol.{Symbol};
    ghost use Rattle.dps_syntax.specs.Calm.{held};

    ghost Value = { List Symbol };

    ghost view = { λ a. reverse a.symbols.items };

    ghost invariant = { λ a. a.depth ≡ held (reverse a.symbols.items) };
}

/// What may come.
#[derive(Clone, Copy)]
pub(crate) enum Awaited {
    Sign(Word),
    End,
    Nothing,
}

/// How many productions that are counted the symbol holds open.
fn held_by(symbol: Symbol) -> usize
    ensures { result ≡ held (symbol ∷ []) }
{
    match symbol {
        Symbol::Close(production) => own_depth_of(production),
        Symbol::Sign(_) | Symbol::Inner(_) | Symbol::More(_) => 0,
    }
}

impl Expected {
    /// Expects nothing.
    pub(crate) fn new(alloc: Global) -> Self
        ensures { result ≡ [] }
    {
        Expected {
            symbols: Vec::new(alloc),
            depth: 0,
        }
    }

    /// How many counted productions are open.
    pub(crate) fn depth(&self) -> usize
        ensures { result ≡ held self.now }
    {
        self.depth
    }

    /// Puts the symbols in front.
    #[tactic(auto, using(crate::proofs::Stack::for_stack))]
    pub(crate) fn push(&mut self, symbols: &[Symbol]) -> Result<(), AllocError>
        ensures { OnOk result (self.new ≡ symbols.now ++ self.old) }
    {
        if let [first, others @ ..] = symbols {
            self.push(others)?;
            self.push_one(*first)?;
        }
        Ok(())
    }

    #[tactic(auto, using(crate::proofs::Stack::for_stack))]
    fn push_one(&mut self, symbol: Symbol) -> Result<(), AllocError>
        ensures { OnOk result (self.new ≡ symbol ∷ self.old) }
    {
        self.symbols.push(symbol)?;
        self.depth += held_by(symbol);
        Ok(())
    }

    #[tactic(auto, using(crate::proofs::Stack::for_stack))]
    fn pop(&mut self) -> Option<Symbol>
        ensures { MatchOption result ((self.old ≡ []) × (self.new ≡ [])) (λ symbol. self.old ≡ symbol ∷ self.new) }
    {
        match self.symbols.pop() {
            None => None,
            Some(symbol) => {
                self.depth -= held_by(symbol);
                Some(symbol)
            }
        }
    }

    /// What may come, given the word that comes next. A sign is taken out.
    #[tactic(auto, using(crate::proofs::Stack::for_turns))]
    fn turn(&mut self, marks: &mut Vec<Mark>, next: Option<Word>) -> Result<Awaited, AllocError>
        requires { calm self.old ≡ true }
        ensures { IfOk result (λ found. Awaits next self.old found self.new marks.old.items marks.new.items) }
    {
        'turn: while let Some(symbol) = self.pop() {
            match (symbol, next) {
                (Symbol::Sign(word), _) => return Ok(Awaited::Sign(word)),
                (Symbol::Close(production), _) => marks.push(Mark::Close(production))?,
                (Symbol::Inner(_), None) => return Ok(Awaited::Nothing),
                (Symbol::Inner(production), Some(word)) => {
                    match chosen_of(alternatives_of(production), word) {
                        None => return Ok(Awaited::Nothing),
                        Some(items) => {
                            marks.push(Mark::Open(production))?;
                            self.push(&[Symbol::Close(production)])?;
                            self.push(items)?;
                        }
                    }
                }
                (Symbol::More(_), None) => {}
                (Symbol::More(more), Some(word)) => {
                    let items = continuation_of(more);
                    if are_begun(items, word) {
                        self.push(items)?;
                    }
                }
            }
        }
        Ok(Awaited::End)
    }

    /// Takes a word. No where it cannot come next.
    #[tactic(auto, using(crate::proofs::Files::for_tokens))]
    pub(crate) fn accept(&mut self, marks: &mut Vec<Mark>, word: Word) -> Result<bool, AllocError>
        requires { calm self.old ≡ true }
        ensures { IfOk result (λ found. MatchBool found (Took word self.old self.new marks.old.items marks.new.items) (Refuses (Some word) self.old)) }
    {
        match self.turn(marks, Some(word))? {
            Awaited::Sign(sign) => {
                if !is_taken(sign, word) {
                    return Ok(false);
                }
                marks.push(Mark::Token(word))?;
                Ok(true)
            }
            Awaited::End => Ok(false),
            Awaited::Nothing => Ok(false),
        }
    }

    /// Whether the end may come.
    #[tactic(auto, using(crate::proofs::Files::for_tokens))]
    pub(crate) fn accept_end(&mut self, marks: &mut Vec<Mark>) -> Result<bool, AllocError>
        requires { calm self.old ≡ true }
        ensures { IfOk result (λ found. MatchBool found (Ended self.old marks.old.items marks.new.items) (Refuses None self.old)) }
    {
        match self.turn(marks, None)? {
            Awaited::Sign(_) => Ok(false),
            Awaited::End => Ok(true),
            Awaited::Nothing => Ok(false),
        }
    }
}
