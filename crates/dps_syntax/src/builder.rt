//! Trees from their marks.

ghost use Rattle.std.specs.Prelude.{◌≡◌, ◌≢◌, ◌∷◌, [], List, OnOk};
ghost use Rattle.dps_syntax.specs.Built.{Piece, begin, one, Adds, Ends, built, opened};

use crate::grammar::Production;
use crate::tree::{Leaf, Part, Tree};
use std::alloc::{AllocError, Global};
use std::mem;

/// An open production, and what stands before it in the production around it.
#[derive(Drop)]
pub(crate) struct Level {
    pub(crate) production: Production,
    pub(crate) before: Vec<Part>,
}

/// Trees that are built part by part.
#[derive(Drop)]
pub(crate) struct Builder {
    /// The open productions, the outermost first.
    pub(crate) levels: Vec<Level>,
    /// The parts of the innermost one.
    pub(crate) parts: Vec<Part>,
}

impl Builder {
    /// Nothing is built or open.
    pub(crate) fn new(alloc: Global) -> Self
        ensures built { (rest : List Piece) → built result rest ≡ rest }
        ensures opened { opened result ≡ [] }
    {
        Builder {
            levels: Vec::new(alloc),
            parts: Vec::new(alloc),
        }
    }

    /// Begins a production.
    #[tactic(auto, using(crate::proofs::Building::for_builder))]
    pub(crate) fn open(&mut self, alloc: Global, production: Production) -> Result<(), AllocError>
        ensures added { OnOk result (Adds (begin production) self.old self.new) }
        ensures opened { OnOk result (opened self.new ≡ production ∷ opened self.old) }
    {
        let before = mem::replace(&mut self.parts, Vec::new(alloc));
        self.levels.push(Level { production, before })?;
        Ok(())
    }

    /// Adds a token.
    #[tactic(auto, using(crate::proofs::Building::for_builder))]
    pub(crate) fn add(&mut self, leaf: Leaf) -> Result<(), AllocError>
        ensures added { OnOk result (Adds (one leaf) self.old self.new) }
        ensures opened { OnOk result (opened self.new ≡ opened self.old) }
    {
        self.parts.push(Part::Token(leaf))?;
        Ok(())
    }

    /// Ends the innermost production.
    #[tactic(auto, using(crate::proofs::Building::for_builder))]
    pub(crate) fn close(&mut self) -> Result<(), AllocError>
        requires { opened self.old ≢ [] }
        ensures { OnOk result (Ends self.old self.new) }
    {
        match self.levels.pop() {
            None => unreachable!(),
            Some(level) => {
                let Level { production, before } = level;
                let parts = mem::replace(&mut self.parts, before);
                self.parts.push(Part::Inner(Tree { production, parts }))?;
                Ok(())
            }
        }
    }
}
