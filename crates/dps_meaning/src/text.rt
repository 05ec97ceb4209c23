//! What is printed for the causes of refused files.
ghost use Rattle.std.specs.Prelude.{◌≡◌, string_bytes, IfOk};
ghost use Rattle.dps_rules.specs.Rules.{flaw_of};
ghost use Rattle.dps_meaning.specs.Causes.{cause_of, cause_text as text_of, name_text as text_of_name, flaw_text, form_text as text_of_form, expansion_text as text_of_expansion};

use crate::ElabCause;
use dps_elab::ExpansionCause;
use dps_rules::RuleCause;
use dps_scopes::NameCause;
use dps_terms::NoMemory;
use dps_theory::FormFault;
use std::alloc::Global;

/// What is printed for a cause, as `name twice`.
pub fn cause_text(alloc: Global, cause: &ElabCause) -> Result<String, NoMemory>
    ensures { IfOk result (λ text. string_bytes text ≡ text_of (cause_of cause.now)) }
{
    match cause {
        ElabCause::Names(cause) => String::from_str(alloc, name_text(*cause)),
        ElabCause::Rules(cause) => rule_text(alloc, cause),
        ElabCause::Sides(cause) => String::from_str(alloc, expansion_text(*cause)),
    }
}

/// For a fault of the names.
fn name_text(cause: NameCause) -> &'static str
    ensures { result.now ≡ text_of_name cause }
{
    match cause {
        NameCause::NameTwice => "name twice",
        NameCause::ReservedName => "reserved name",
        NameCause::UnknownName => "unknown name",
        NameCause::WrongArity => "wrong arity",
        NameCause::WrongKind => "wrong kind",
        NameCause::LargeArity => "large arity",
        NameCause::PrivateInRule => "private in rule",
        NameCause::BadCopies => "bad copies",
    }
}

/// For a fault of the rules.
fn rule_text(alloc: Global, cause: &RuleCause) -> Result<String, NoMemory>
    ensures { IfOk result (λ text. string_bytes text ≡ flaw_text (flaw_of cause.now)) }
{
    match cause {
        RuleCause::Form { rule, fault } => {
            let text = form_text(*fault);
            format!(in alloc; "rule {rule}: {text}")
        }
        RuleCause::Overlap {
            first,
            second,
            bindings,
        } => { format!(in alloc; "overlap of rules {first} and {second} under {bindings}") }
    }
}

/// For a rule that is refused by itself.
fn form_text(fault: FormFault) -> &'static str
    ensures { result.now ≡ text_of_form fault }
{
    match fault {
        FormFault::RootNotDestructor => "left root is a constructor",
        FormFault::ArgumentNotConstructor => "destructor inside an argument",
        FormFault::RightNotConstructor => "destructor on the right",
        FormFault::NotSubterm => "right side is no strict subterm and not ground",
    }
}

/// For sides that can not be written out.
fn expansion_text(cause: ExpansionCause) -> &'static str
    ensures { result.now ≡ text_of_expansion cause }
{
    match cause {
        ExpansionCause::TooLarge => "too large",
        ExpansionCause::NotAChannel => "not a channel",
        ExpansionCause::PrivateChannel => "private channel in a term",
    }
}
