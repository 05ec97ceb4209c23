//! The faults of rules.
use dps_lex::Place;
use dps_theory::FormFault;
use std::alloc::AllocError;

/// Why the rules of a file make no accepted theory. They are counted from 1 in text order.
#[derive(Drop)]
pub enum RuleCause {
    /// A rule is refused by itself.
    Form {
        rule: u32,
        fault: FormFault,
    },
    /// The left sides of two rules have a common instance whose right sides differ. The text is the list of bindings of
    /// their most general unifier: `1.x=t` or `2.x=t`, where x is a variable of the first or of the second rule, and
    /// `nothing` where there is none.
    Overlap {
        first: u32,
        second: u32,
        bindings: String,
    },
}

/// The first fault of a file's rules, at the first token of the rule that is refused.
#[derive(Drop)]
pub struct RuleFault {
    pub place: Place,
    pub cause: RuleCause,
}

/// Why a program has no theory.
#[derive(Drop)]
pub enum RuleRefusal {
    /// The first fault of its rules.
    Fault(RuleFault),
    /// Want of memory.
    Memory,
}

impl From<AllocError> for RuleRefusal {
    ghost use Rattle.std.specs.Prelude.{◌≡◌};
    ghost use Rattle.dps_rules.specs.declared.fault.RuleRefusal.TheVariants.{Memory};

    ghost from_gives = { λ _ refusal. refusal ≡ Memory };

    fn from(_error: AllocError) -> RuleRefusal {
        RuleRefusal::Memory
    }
}
