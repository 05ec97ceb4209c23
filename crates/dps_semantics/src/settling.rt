//! What silent steps reach.
ghost use Rattle.std.specs.Prelude.{◌≡◌, IfOk};
ghost use Rattle.dps_bags.specs.Apart.{StandOnce};
ghost use Rattle.dps_process.specs.Process.{nil};
ghost use Rattle.dps_semantics.specs.Settling.{AreSettlings, EachStandsOnce};
ghost use Rattle.dps_semantics.specs.Parts.{AreAllNumbers};
ghost use Rattle.dps_semantics.specs.Configs.{AreConfigsOf};

use crate::Config;
use crate::coming::all_come_to;
use crate::meeting::reached;
use crate::parts::Parts;
use dps_bags::Bags;
use dps_process::Problem;
use dps_recipes::Frame;
use dps_terms::{NoMemory, Term};
use std::alloc::{AllocError, Global};

/// All configurations in which only inputs and outputs stand and to which silent steps lead, each in some order of its
/// parts, and none twice. It fails for want of memory alone.
pub fn settle(alloc: Global, problem: &Problem, config: Config) -> Result<Vec<Config>, NoMemory>
    ensures just { IfOk result (λ configs. AreSettlings problem.now config configs.items) }
    ensures once { IfOk result (λ configs. EachStandsOnce configs.items) }
{
    let config = &config;
    let mut parts = Parts::new(alloc);
    let bags = all_come_to(alloc, problem, &mut parts, &config.parts)?;
    let bags = reached(alloc, problem, &mut parts, bags)?;
    configs(alloc, &parts, &bags, &config.frame)
}

/// The configurations of the bags, with the frame.
pub(crate) fn configs(
    alloc: Global,
    parts: &Parts,
    bags: &Bags,
    frame: &Frame,
) -> Result<Vec<Config>, NoMemory>
    requires numbers { AreAllNumbers parts.now bags.now }
    requires parts { StandOnce nil parts.now }
    ensures are { IfOk result (λ configs. AreConfigsOf parts.now bags.now frame.now configs.items) }
    ensures once { IfOk result (λ configs. EachStandsOnce configs.items) }
{
    let mut configs = Vec::with_capacity(alloc, bags.len())?;
    for index in 0..bags.len() {
        configs.push(Config {
            parts: parts.copies(alloc, bags.bag(index))?,
            frame: Frame {
                messages: copied(alloc, &frame.messages)?,
            },
        })?;
    }
    Ok(configs)
}

/// Copies of the terms.
pub(crate) fn copied(alloc: Global, terms: &[Term]) -> Result<Vec<Term>, NoMemory>
    ensures { IfOk result (λ copies. copies.items ≡ terms.now) }
{
    let mut copies = Vec::with_capacity(alloc, terms.len())?;
    for term in terms {
        copies.push(term.copy(alloc)?)?;
    }
    Ok(copies)
}
