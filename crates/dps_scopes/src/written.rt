//! Terms of processes, as a file writes them.
use dps_lex::Place;
use dps_terms::Term;
use std::marker::Model;

/// What in a term is a private name, or may become one when a definition is called.
#[derive(Clone, Copy, Debug, PartialEq, Eq)]
pub enum Use {
    /// A declared private name, by its number in the signature, and where it is written.
    PrivateName(u32, Place),
    /// A local, by its number.
    Local(usize),
}

/// A term of a process, and what in it is or may become a private name, in text order.
///
/// `var i` in the term is the i-th local, counted from 0, from the outermost binder inwards.
#[derive(Drop)]
pub struct Written {
    pub tree: Term,
    pub uses: Vec<Use>,
}

impl Model for Written {
    ghost use Rattle.dps_scopes.specs.Written.{Written};
    ghost use Rattle.dps_scopes.specs.Stored.{written_code};

    ghost Value = { Written };

    ghost coded = { written_code };

    ghost view = { λ a. record { tree = a.tree; uses = a.uses.items } };
}
