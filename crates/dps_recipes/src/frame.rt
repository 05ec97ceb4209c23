//! Frames.
use dps_terms::Term;
use std::marker::Model;

/// The messages that a process has put out, in order: `ax1` stands for the first.
#[derive(Drop)]
pub struct Frame {
    pub messages: Vec<Term>,
}

impl Model for Frame {
    ghost use Rattle.std.specs.Prelude.{List};
    ghost use Rattle.std.specs.Coded.{coded_list};
    ghost use Rattle.dps_terms.specs.Tree.{Tree};
    ghost use Rattle.dps_terms.specs.Stored.{tree_code};

    ghost Value = { List Tree };

    ghost coded = { coded_list tree_code };

    ghost view = { λ a. a.messages.items };
}
