//! Which problems have outputs alone.
ghost use Rattle.std.specs.Prelude.{◌≡◌, ◌↔◌, IsTrue, All};
ghost use Rattle.dps_signature.specs.declared.SymKind.TheVariants.{Constructor};
ghost use Rattle.dps_signature.specs.Signature.{IsPublic};
ghost use Rattle.dps_tree.specs.Plain.{HasOutputsAlone, IsPlain};

use dps_branch::Side;
use dps_process::{Problem, Process, ProcessView};
use dps_signature::{Signature, SymKind};
use dps_terms::Sym;

/// Whether the signature has constructors alone, the theory no rules, and the sides hold `0`, `|` and outputs on public
/// channels alone. It takes no memory.
pub fn is_plain(problem: &Problem) -> bool
    ensures { IsTrue result ↔ IsPlain problem.now }
{
    let signature = problem.signature();
    has_constructors_alone(signature)
        && problem.theory().rules().is_empty()
        && has_outputs_alone(problem.side(Side::Left), signature)
        && has_outputs_alone(problem.side(Side::Right), signature)
}

fn has_constructors_alone(signature: &Signature) -> bool
    ensures { IsTrue result ↔ All (λ s. s.kind ≡ Constructor) signature.now.symbols }
{
    for number in 0..signature.symbol_count() {
        match signature.kind(Sym { number }) {
            SymKind::Constructor => {}
            SymKind::Destructor => return false,
        }
    }
    true
}

fn has_outputs_alone(process: &Process, signature: &Signature) -> bool
    ensures { IsTrue result ↔ HasOutputsAlone signature.now process.now }
{
    match process.view() {
        ProcessView::Nil => true,
        ProcessView::Parallel(left, right) => {
            has_outputs_alone(left, signature) && has_outputs_alone(right, signature)
        }
        ProcessView::Output(channel, _, then) => {
            is_public(channel, signature) && has_outputs_alone(then, signature)
        }
        _ => false,
    }
}

fn is_public(channel: u32, signature: &Signature) -> bool
    ensures { IsTrue result ↔ IsPublic signature.now channel }
{
    channel < signature.name_count() && !signature.is_private(channel)
}
