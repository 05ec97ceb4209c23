ghost use Rattle.std.specs.Prelude.{◌≡◌, ℕ, ◌<◌, IfOk, Some, length, map, slice_get};
ghost use Rattle.dps_core.specs.declared.rows.Row.{Row};
ghost use Rattle.dps_core.specs.Book.{kids, dropped_after};

use crate::event::Mark;
use dps_path::{NoMemory, Path};
use std::alloc::Global;

/// A path and what has become of it.
#[derive(Debug, Drop)]
pub struct Row {
    pub path: Path,
    pub mark: Mark,
}

/// The rows of so many kids of a path, all of them open.
pub fn kids_of(alloc: Global, path: &Path, count: u32) -> Result<Vec<Row>, NoMemory>
    ensures { IfOk result (λ rows. rows.items ≡ kids path.now 0 count) }
{
    let mut rows = Vec::new(alloc);
    for number in 0..count {
        rows.push(Row {
            path: path.child(number)?,
            mark: Mark::Open,
        })?;
    }
    Ok(rows)
}

/// Drops what is open after the path of the row at this index.
pub fn drop_after(rows: &mut Vec<Row>, index: usize)
    requires { index < length rows.old.items }
    ensures { (r : Row) → slice_get rows.old.items index ≡ Some r → rows.new.items ≡ map (dropped_after r.path) rows.old.items }
{
    for place in 0..rows.len() {
        if rows[index].path.before(&rows[place].path) {
            rows[place].mark = rows[place].mark.dropped();
        }
    }
}
