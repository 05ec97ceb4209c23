//! The theory of a program.
ghost use Rattle.std.specs.Prelude.{◌≡◌, ◌<◌, ◌≤◌, map, length, Some, IfOk, IfErr};
ghost use Rattle.dps_signature.specs.Signature.{shapes};
ghost use Rattle.dps_theory.specs.Conditions.{AreCheckable};
ghost use Rattle.dps_theory.specs.Checking.{IsRefused, IsFirstFault, IsFirstOverlap};
ghost use Rattle.dps_process.specs.Problem.{IsLawfulTheory};
ghost use Rattle.dps_rules.specs.Rules.{rules_of, theory_of as theory_of_program, written_rule, IsRuleRefusal};

use crate::bindings::bindings_text;
use crate::{RuleCause, RuleFault, RuleRefusal};
use dps_names::{Program, WrittenRule};
use dps_terms::{NoMemory, Subst};
use dps_theory::{FormFault, Rule, Theory, TheoryRefusal};
use std::alloc::Global;

/// The theory of a program: the rules of its projections, and then those that its text writes. It is accepted.
///
/// The rules may be checked: those of a text of at most 1,048,576 bytes may.
///
/// # Errors
///
/// - `Fault`: the first fault of the rules, at the first token of the rule that is refused; of two rules that overlap,
///   at that of the second.
/// - `Memory`: want of memory.
pub fn theory_of(alloc: Global, program: &Program) -> Result<Theory, RuleRefusal>
    requires { AreCheckable program.now.signature (rules_of program.now) }
    ensures theory { IfOk result (λ theory. theory ≡ theory_of_program program.now) }
    ensures lawful { IfOk result (IsLawfulTheory program.now.signature) }
    ensures refused { IfErr result (IsRuleRefusal program.now) }
{
    let Ok(rules) = copied(alloc, program.rules.as_slice()) else {
        return Err(RuleRefusal::Memory);
    };
    match Theory::check(alloc, &program.signature, rules) {
        Ok(theory) => Ok(theory),
        Err(refusal) => Err(refused(alloc, program, refusal)),
    }
}

/// The rules alone.
fn copied(alloc: Global, written: &[WrittenRule]) -> Result<Vec<Rule>, NoMemory>
    ensures { IfOk result (λ v. v.items ≡ map (λ r. r.rule) written.now) }
{
    let mut rules = Vec::new(alloc);
    for one in written {
        rules.push(one.rule.copy(alloc)?)?;
    }
    Ok(rules)
}

/// What is refused of a program whose rules are refused.
fn refused(alloc: Global, program: &Program, refusal: TheoryRefusal) -> RuleRefusal
    requires checkable { AreCheckable program.now.signature (rules_of program.now) }
    requires refused { IsRefused (shapes program.now.signature) (rules_of program.now) refusal }
    ensures { IsRuleRefusal program.now result }
{
    match refusal {
        TheoryRefusal::Form { rule, fault } => refused_alone(program, rule, fault),
        TheoryRefusal::Overlap {
            first,
            second,
            unifier,
        } => overlapping(alloc, program, first, second, &unifier),
        TheoryRefusal::Memory => RuleRefusal::Memory,
    }
}

/// The fault of the rule with this number.
fn refused_alone(program: &Program, rule: u32, fault: FormFault) -> RuleRefusal
    requires { IsFirstFault (shapes program.now.signature) (rules_of program.now) rule fault }
    ensures { IsRuleRefusal program.now result }
{
    let place = numbered(program.rules.as_slice(), rule).place;
    let cause = RuleCause::Form { rule, fault };
    RuleRefusal::Fault(RuleFault { place, cause })
}

/// The fault of two rules that overlap.
fn overlapping(
    alloc: Global,
    program: &Program,
    first: u32,
    second: u32,
    unifier: &Subst,
) -> RuleRefusal
    requires checkable { AreCheckable program.now.signature (rules_of program.now) }
    requires overlap { IsFirstOverlap (shapes program.now.signature) (rules_of program.now) first second unifier.now }
    ensures { IsRuleRefusal program.now result }
{
    let rules = program.rules.as_slice();
    let earlier = numbered(rules, first);
    let rule = numbered(rules, second);
    match bindings_text(alloc, &program.signature, earlier, rule, unifier) {
        Ok(bindings) => RuleRefusal::Fault(RuleFault {
            place: rule.place,
            cause: RuleCause::Overlap {
                first,
                second,
                bindings,
            },
        }),
        Err(_) => RuleRefusal::Memory,
    }
}

/// The rule of a number, counted from 1.
fn numbered(rules: &[WrittenRule], number: u32) -> &WrittenRule
    requires above { 0 < number }
    requires within { number ≤ length rules.now }
    ensures { written_rule rules.now number ≡ Some result.now }
{
    &rules[number as usize - 1]
}
