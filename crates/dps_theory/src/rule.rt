//! Rewrite rules.
ghost use Rattle.std.specs.Prelude.{◌≡◌, IfOk};
ghost use Rattle.dps_theory.specs.Overlaps.{HasSmallVariables, room};

use crate::overlap::room_of;
use dps_terms::{NoMemory, Term};
use std::alloc::Global;
use std::marker::Model;

/// A rewrite rule `left -> right`.
#[derive(Drop)]
pub struct Rule {
    pub left: Term,
    pub right: Term,
}

impl Model for Rule {
    ghost use Rattle.dps_theory.specs.Theory.{Rule};
    ghost use Rattle.dps_theory.specs.Stored.{rule_code};

    ghost Value = { Rule };

    ghost coded = { rule_code };

    ghost view = { λ a. record { left = a.left; right = a.right } };
}

impl Rule {
    /// A copy.
    pub fn copy(&self, alloc: Global) -> Result<Rule, NoMemory>
        ensures { IfOk result (λ rule. rule ≡ self.now) }
    {
        Ok(Rule {
            left: self.left.copy(alloc)?,
            right: self.right.copy(alloc)?,
        })
    }

    /// The least number above those of the left side's variables: by so much the variables of another rule are raised,
    /// where the two are looked at together.
    ///
    /// The numbers of the variables are below 2^32.
    pub fn room(&self, alloc: Global) -> Result<u64, NoMemory>
        requires { HasSmallVariables self.now }
        ensures { IfOk result (λ number. number ≡ room self.now) }
    {
        room_of(alloc, &self.left)
    }
}

/// Copies of the rules.
pub(crate) fn copied(alloc: Global, rules: &[Rule]) -> Result<Vec<Rule>, NoMemory>
    ensures { IfOk result (λ v. v.items ≡ rules.now) }
{
    let mut copies = Vec::new(alloc);
    for rule in rules {
        copies.push(rule.copy(alloc)?)?;
    }
    Ok(copies)
}
