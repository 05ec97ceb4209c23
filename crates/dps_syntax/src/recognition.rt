//! A whole file, word by word.

ghost use Rattle.std.specs.Prelude.{MatchResult, IfOk};
ghost use Rattle.dps_syntax.specs.Depth.{IsFaultAt};
ghost use Rattle.dps_syntax.specs.Marks.{IsShallowWalk};

use crate::expected::Expected;
use crate::grammar::{Mark, More, Production, Symbol, Word};
use dps_lex::FaultKind;
use std::alloc::{AllocError, Global};

/// The greatest depth of a process, pattern or term.
const DEEPEST: usize = 200;

/// The first fault of some words, and the number of words before it.
#[derive(Clone, Copy)]
pub(crate) struct Stop {
    pub(crate) place: usize,
    pub(crate) kind: FaultKind,
}

/// The marks of the file with these words, or their first fault.
#[tactic(auto, using(crate::proofs::Files::for_files))]
pub(crate) fn marks_of(alloc: Global, words: &[Word]) -> Result<Result<Vec<Mark>, Stop>, AllocError>
    ensures { IfOk result (λ found. MatchResult found (λ marks. IsShallowWalk words.now marks.items) (λ stop. IsFaultAt words.now stop.place stop.kind)) }
{
    let mut expected = Expected::new(alloc);
    let mut marks = Vec::new(alloc);
    expected.push(&[
        Symbol::More(More::Declarations),
        Symbol::Inner(Production::Query),
    ])?;
    for (place, word) in words.iter().enumerate() {
        if !expected.accept(&mut marks, *word)? {
            return Ok(Err(Stop {
                place,
                kind: FaultKind::UnexpectedToken,
            }));
        }
        if expected.depth() > DEEPEST {
            return Ok(Err(Stop {
                place,
                kind: FaultKind::TooDeep,
            }));
        }
    }
    if !expected.accept_end(&mut marks)? {
        return Ok(Err(Stop {
            place: words.len(),
            kind: FaultKind::UnexpectedEnd,
        }));
    }
    Ok(Ok(marks))
}
