ghost use Rattle.std.specs.Prelude.{◌≡◌, [], ◌++◌, IfOk, OnOk};
ghost use Rattle.dps_pool.specs.First.{IsFirst};

use crate::found::Found;
use dps_branch::{Branching, Look};
use dps_path::NoMemory;
use std::alloc::Global;

/// The first stop of the root's tree. Nodes are expanded in the order of their paths, up to that stop, and nobody is
/// waited for.
pub fn explore_one<N: Branching>(alloc: Global, root: N) -> Result<Found, NoMemory>
    requires { N.place root ≡ [] }
    ensures { IfOk result (λ found. IsFirst (N.looks root) found) }
{
    // The nodes that are left, the first one at the end.
    let mut left = Vec::new(alloc);
    left.push(root)?;
    while let Some(node) = left.pop() {
        match node.expand(alloc)? {
            Look::Stop(kind) => {
                return Ok(Found::Stop {
                    path: node.path().copy()?,
                    kind,
                });
            }
            Look::Kids(mut kids) => {
                kids.reverse();
                left.append(&mut kids)?;
            }
        }
    }
    Ok(Found::None)
}
