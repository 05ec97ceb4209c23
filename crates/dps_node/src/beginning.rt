//! The root of a tree.
ghost use Rattle.std.specs.Prelude.{◌≡◌, IfOk};
ghost use Rattle.dps_process.specs.Problem.{side_of};
ghost use Rattle.dps_node.specs.Node.{root as root_of, begins};
ghost use Rattle.dps_node.specs.Code.{node_of, config_of};

use crate::{Node, SymConfig};
use dps_branch::Side;
use dps_know::Know;
use dps_process::Problem;
use dps_terms::NoMemory;
use std::alloc::Global;

/// The root of a problem's tree: both sides, and nothing known.
pub fn root(alloc: Global, problem: &Problem) -> Result<Node, NoMemory>
    ensures { IfOk result (λ node. node_of node ≡ root_of problem.now) }
{
    let left = start(alloc, problem, Side::Left)?;
    let right = start(alloc, problem, Side::Right)?;
    let mut configs = Vec::new(alloc);
    configs.push(left)?;
    configs.push(right)?;
    Ok(Node {
        labels: Vec::new(alloc),
        levels: Vec::new(alloc),
        know: Know::new(alloc),
        disequations: Vec::new(alloc),
        configs,
        m: 0,
        closed: true,
        examine: false,
        count: 0,
    })
}

/// What the side starts as.
fn start(alloc: Global, problem: &Problem, side: Side) -> Result<SymConfig, NoMemory>
    ensures { IfOk result (λ c. config_of c ≡ begins side (side_of problem.now side)) }
{
    let process = problem.side(side).copy(alloc)?;
    let mut parts = Vec::new(alloc);
    parts.push(process)?;
    Ok(SymConfig {
        side,
        parts,
        frame: Vec::new(alloc),
        values: Vec::new(alloc),
        mixed: false,
    })
}
