ghost use Rattle.std.specs.Prelude.{◌≡◌, ℕ, List, IfOk};
ghost use Rattle.dps_branch.specs.LookTrees.{LookTree};
ghost use Rattle.dps_branch.specs.Looks.{IsTop};

use crate::kind::StopKind;
use dps_path::{NoMemory, Path};
use std::alloc::Global;
use std::marker::Brand;

/// What stands at a node.
#[derive(Drop)]
pub enum Look<N> {
    /// The tree stops here.
    Stop(StopKind),
    /// The tree goes on with these nodes, in the order of their numbers.
    Kids(Vec<N>),
}

/// Names one tree. It has no functions, and contracts alone see the tree.
pub trait OneTree {
    ghost tree: { LookTree };
}

impl OneTree for Brand {
    ghost use Rattle.dps_branch.specs.LookTrees.{stop};
    ghost use Rattle.dps_branch.specs.declared.kind.StopKind.TheVariants.{Spent};

    ghost tree = { stop Spent };
}

/// The nodes of a tree. A node means its path and its look tree.
pub trait Branching: Send + Drop {
    ghost place: { Self → List ℕ };

    ghost looks: { Self → LookTree };

    /// The top of the node's look tree. Each kid has a kid's path and a kid's look tree.
    fn expand(&self, alloc: Global) -> Result<Look<Self>, NoMemory>
        ensures { IfOk result (λ look. IsTop place looks (place self.now) (looks self.now) look) };

    /// The node's path.
    fn path(&self) -> &Path
        ensures { result.now ≡ place self.now };
}
