//! What a file says once its names are looked up.
use dps_lex::Place;
use dps_scopes::{Body, Definition};
use dps_signature::Signature;
use dps_theory::Rule;
use std::marker::Model;

/// A rule, where it begins, and the texts of its variables: `var i` in it is the i-th, by first occurrence.
#[derive(Drop)]
pub struct WrittenRule {
    pub rule: Rule,
    pub place: Place,
    pub variables: Vec<String>,
}

/// A side of the query, and where it begins.
#[derive(Drop)]
pub struct Side {
    pub body: Body,
    pub place: Place,
}

/// A whole file with its names looked up. Definitions are numbered from 0, in text order.
#[derive(Drop)]
pub struct Program {
    pub signature: Signature,
    pub rules: Vec<WrittenRule>,
    pub definitions: Vec<Definition>,
    pub left: Side,
    pub right: Side,
}

impl Model for WrittenRule {
    ghost use Rattle.std.specs.Prelude.{string_bytes, map};
    ghost use Rattle.dps_names.specs.Program.{WrittenRule};
    ghost use Rattle.dps_names.specs.StoredProgram.{written_rule_code};

    ghost Value = { WrittenRule };

    ghost coded = { written_rule_code };

    ghost view = { λ a. record { rule = a.rule; place = a.place; variables = map string_bytes a.variables.items } };
}

impl Model for Program {
    ghost use Rattle.dps_names.specs.Program.{Program};
    ghost use Rattle.dps_names.specs.StoredProgram.{program_code};

    ghost Value = { Program };

    ghost coded = { program_code };

    ghost view = { λ a. record { signature = a.signature; rules = a.rules.items; definitions = a.definitions.items; left = a.left; right = a.right } };
}
