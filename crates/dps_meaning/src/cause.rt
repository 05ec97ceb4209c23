//! Why a file means nothing.
ghost use Rattle.std.specs.Prelude.{◌≡◌};
ghost use Rattle.dps_meaning.specs.Refusals.{names_refusal, rules_refusal, sides_refusal};

use dps_elab::{ExpandRefusal, ExpansionCause};
use dps_lex::Place;
use dps_rules::{RuleCause, RuleRefusal};
use dps_scopes::{NameCause, NameRefusal};

/// What is wrong with a file that is read: with its names; where nothing is, with its rules; and where nothing is either,
/// with its sides.
#[derive(Drop)]
pub enum ElabCause {
    Names(NameCause),
    Rules(RuleCause),
    Sides(ExpansionCause),
}

/// Why a file has no problem, or no theory.
#[derive(Drop)]
pub enum ElabRefusal {
    /// Its first fault, at this line and column, each counted from 1.
    Fault {
        line: u32,
        column: u32,
        cause: ElabCause,
    },
    /// There was no memory.
    Memory,
}

/// The fault at this place.
fn fault_at(place: Place, cause: ElabCause) -> ElabRefusal
    ensures { result ≡ ElabRefusal.Fault place.line place.column cause }
{
    ElabRefusal::Fault {
        line: place.line,
        column: place.column,
        cause,
    }
}

/// A file whose names are refused.
pub(crate) fn of_names(refusal: NameRefusal) -> ElabRefusal
    ensures { result ≡ names_refusal refusal }
{
    match refusal {
        NameRefusal::Fault(fault) => fault_at(fault.place, ElabCause::Names(fault.cause)),
        NameRefusal::Memory => ElabRefusal::Memory,
    }
}

/// A file whose rules are refused.
pub(crate) fn of_rules(refusal: RuleRefusal) -> ElabRefusal
    ensures { result ≡ rules_refusal refusal }
{
    match refusal {
        RuleRefusal::Fault(fault) => fault_at(fault.place, ElabCause::Rules(fault.cause)),
        RuleRefusal::Memory => ElabRefusal::Memory,
    }
}

/// A file whose sides can not be written out.
pub(crate) fn of_sides(refusal: ExpandRefusal) -> ElabRefusal
    ensures { result ≡ sides_refusal refusal }
{
    match refusal {
        ExpandRefusal::Fault(fault) => fault_at(fault.place, ElabCause::Sides(fault.cause)),
        ExpandRefusal::Memory => ElabRefusal::Memory,
    }
}
