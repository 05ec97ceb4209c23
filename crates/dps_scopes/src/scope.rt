//! The locals at a place of a process.
ghost use Rattle.std.specs.Prelude.{◌≡◌, ◌+◌, IfOk};
ghost use Rattle.dps_scopes.specs.Scopes.{local_count, local_named};
ghost use Rattle.dps_scopes.specs.Blocks.{blocks};

use crate::texts::Texts;
use dps_terms::NoMemory;
use std::alloc::AllocError;

/// The locals at a place of a process, by what binds them.
#[derive(Clone, Copy)]
pub enum Scope<'a> {
    /// No local.
    Outermost,
    /// A name that `new` binds.
    Fresh(&'a str, &'a Scope<'a>),
    /// Parameters, or the locals of a pattern.
    Block(&'a Texts, &'a Scope<'a>),
}

impl<'a> Scope<'a> {
    /// How many locals there are. It fails only where no `usize` holds the number, for which there is no memory.
    pub fn count(&self) -> Result<usize, NoMemory>
        ensures { IfOk result (λ n. n ≡ local_count (blocks self.now)) }
    {
        match self {
            Scope::Outermost => Ok(0),
            Scope::Fresh(_, outer) => sum(1, outer.count()?),
            Scope::Block(texts, outer) => sum(texts.count(), outer.count()?),
        }
    }

    /// The number of the innermost local with this text. It fails only where no `usize` holds the number of locals.
    pub fn find(&self, text: &str) -> Result<Option<usize>, NoMemory>
        ensures { IfOk result (λ found. found ≡ local_named (blocks self.now) text.now) }
    {
        match self {
            Scope::Outermost => Ok(None),
            Scope::Fresh(name, outer) => {
                if text == *name {
                    Ok(Some(outer.count()?))
                } else {
                    outer.find(text)
                }
            }
            Scope::Block(texts, outer) => match texts.find(text) {
                Some(number) => Ok(Some(sum(outer.count()?, number)?)),
                None => outer.find(text),
            },
        }
    }
}

/// The sum of two numbers of locals. It fails only where no `usize` holds it.
pub fn sum(first: usize, second: usize) -> Result<usize, NoMemory>
    ensures { IfOk result (λ n. n ≡ first + second) }
{
    first.checked_add(second).ok_or(AllocError)
}
