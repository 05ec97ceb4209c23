//! Cases of a term.
use dps_terms::Term;
use std::marker::Model;

/// A way in which a term with variables may evaluate: where the two terms of each equation are equal, it evaluates to the
/// result.
#[derive(Drop)]
pub struct Case {
    pub equations: Vec<(Term, Term)>,
    pub result: Term,
}

impl Model for Case {
    ghost use Rattle.dps_symeval.specs.Cases.{Case};
    ghost use Rattle.dps_symeval.specs.Stored.{case_code};

    ghost Value = { Case };

    ghost coded = { case_code };

    ghost view = { λ a. record { equations = a.equations.items; result = a.result } };
}
