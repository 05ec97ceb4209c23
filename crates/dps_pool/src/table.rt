//! Trees that are tables of looks, for tests and benchmarks.

ghost use Rattle.std.specs.Prelude.{◌≡◌, ◌<◌, ◌+◌, ◌^◌, [], length, IfOk};
ghost use Rattle.dps_pool.specs.Table.{table_tree};

use dps_branch::{Branching, Look, StopKind};
use dps_path::{NoMemory, Path};
use std::alloc::Global;

/// A node of the tree of a table. The entry `i` stops or goes on, and then has the kids `2 * i + 1` and `2 * i + 2`.
#[derive(Drop)]
pub struct TableNode<'t> {
    pub table: &'t [Option<StopKind>],
    pub index: u64,
    /// How many levels are below this one.
    pub levels: u32,
    pub path: Path,
    pub ghost short: { length table.now < 2 ^ 60 },
}

impl<'t> TableNode<'t> {
    ghost use Rattle.dps_pool.specs.TableNodes.{IsKid, AreBoth};

    /// The node of the first entry.
    pub fn root(alloc: Global, table: &'t [Option<StopKind>], levels: u32) -> TableNode<'t>
        requires { length table.now < 2 ^ 60 }
        ensures path { result.path ≡ [] }
        ensures tree { table_tree result.levels result.table.now result.index ≡ table_tree levels table.now 0 }
    {
        TableNode {
            table,
            index: 0,
            levels,
            path: Path::root(alloc),
        }
    }

    /// A kid of this node, by its number, at this entry.
    fn kid(&self, number: u32, index: u64) -> Result<TableNode<'t>, NoMemory>
        requires { 0 < self.now.levels }
        ensures { IfOk result (λ kid. IsKid self.now number index kid) }
    {
        Ok(TableNode {
            table: self.table,
            index,
            levels: self.levels - 1,
            path: self.path.child(number)?,
        })
    }

    /// Both kids.
    fn kids(&self, alloc: Global) -> Result<Vec<TableNode<'t>>, NoMemory>
        requires levels { 0 < self.now.levels }
        requires index { self.now.index < length self.now.table.now }
        ensures { IfOk result (λ kids. AreBoth self.now kids.items) }
    {
        let mut kids = Vec::new(alloc);
        kids.push(self.kid(0, 2 * self.index + 1)?)?;
        kids.push(self.kid(1, 2 * self.index + 2)?)?;
        Ok(kids)
    }
}

impl<'t> Branching for TableNode<'t> {
    ghost place = { λ n. n.path };

    ghost looks = { λ n. table_tree n.levels n.table.now n.index };

    fn expand(&self, alloc: Global) -> Result<Look<TableNode<'t>>, NoMemory> {
        match self.table.get(self.index as usize) {
            None => Ok(Look::Kids(Vec::new(alloc))),
            Some(Some(kind)) => Ok(Look::Stop(*kind)),
            Some(None) => {
                if self.levels == 0 {
                    return Ok(Look::Kids(Vec::new(alloc)));
                }
                let kids = self.kids(alloc)?;
                Ok(Look::Kids(kids))
            }
        }
    }

    fn path(&self) -> &Path {
        &self.path
    }
}
