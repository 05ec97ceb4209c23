//! Processes made of what is written, whose terms stand behind boxes until then.
ghost use Rattle.std.specs.Prelude.{◌≡◌, IfOk};
ghost use Rattle.dps_process.specs.Process as process;
ghost use Rattle.dps_elab.specs.Turns.{joined};

use crate::settle::Join;
use dps_process::Process;
use dps_terms::{NoMemory, Term};
use std::alloc::Global;

/// Two processes with a sign between them.
pub(crate) fn joined(
    alloc: Global,
    join: Join,
    first: Process,
    last: Process,
) -> Result<Process, NoMemory>
    ensures { IfOk result (λ p. p ≡ joined join first last) }
{
    match join {
        Join::ByParallel => Process::parallel(alloc, first, last),
        Join::ByChoice => Process::choice(alloc, first, last),
    }
}

/// `out(c,u); p`
pub(crate) fn output_of(
    alloc: Global,
    channel: u32,
    sent: Box<Term>,
    next: Process,
) -> Result<Process, NoMemory>
    ensures { IfOk result (λ p. p ≡ process.output channel sent.value next) }
{
    Process::output(alloc, channel, Box::into_inner(sent), next)
}

/// `if u = v then p else q`
pub(crate) fn conditional_of(
    alloc: Global,
    left: Box<Term>,
    right: Box<Term>,
    then: Process,
    other: Process,
) -> Result<Process, NoMemory>
    ensures { IfOk result (λ p. p ≡ process.conditional left.value right.value then other) }
{
    let left = Box::into_inner(left);
    let right = Box::into_inner(right);
    Process::conditional(alloc, left, right, then, other)
}

/// `let x = u in p else q`
pub(crate) fn bind_of(
    alloc: Global,
    variable: u64,
    value: Box<Term>,
    then: Process,
    other: Process,
) -> Result<Process, NoMemory>
    ensures { IfOk result (λ p. p ≡ process.bind variable value.value then other) }
{
    Process::bind(alloc, variable, Box::into_inner(value), then, other)
}
