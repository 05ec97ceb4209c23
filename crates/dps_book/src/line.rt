//! The order of paths as a chain of tickets, in which kids come behind their parent.
//!
//! Nothing is searched in it: kids are linked in behind their parent, and a stop cuts off what comes behind its own path.
ghost use Rattle.std.specs.Prelude.{◌≡◌, ℕ, ◌+◌, ◌≤◌, ◌<◌, List, ◌∷◌, ◌++◌, length, cond};
ghost use Rattle.std.specs.Vec.{vec_capacity};
ghost use Rattle.dps_core.specs.Pool.{tickets};
ghost use Rattle.dps_book.specs.Right.{opens};
ghost use Rattle.dps_book.specs.InOrder.{Leads, AreOnce, dropped_at, IsCut};

use dps_core::Row;

/// Links so many new tickets in behind this one.
pub(crate) fn link_kids(next: &mut Vec<Option<u64>>, ticket: usize, count: u32)
    requires within { ticket < length next.old.items }
    requires room { length next.old.items + count ≤ vec_capacity next.old }
    ensures each { length next.new.items ≡ length next.old.items + count }
    ensures leads { (front behind : List ℕ) → Leads next.old.items (front ++ ticket ∷ behind) → AreOnce (front ++ ticket ∷ behind)
        → Leads next.new.items (front ++ ticket ∷ (tickets (length next.old.items) count ++ behind)) }
{
    let mut last = ticket;
    for _ in 0..count {
        let kid = next.len();
        let behind = next[last];
        next.push_reserved(behind);
        next[last] = Some(kid as u64);
        last = kid;
    }
}

/// Drops what is open at this ticket. Whether it was open.
fn drop_at(rows: &mut Vec<Row>, index: usize) -> bool
    requires { index < length rows.old.items }
    ensures rows { rows.new.items ≡ dropped_at rows.old.items index }
    ensures count { cond result 1 0 + opens rows.new.items ≡ opens rows.old.items }
{
    let row = &mut rows[index];
    let was_open = row.mark.is_open();
    row.mark = row.mark.dropped();
    was_open
}

/// Drops what is open behind this ticket, and cuts it off. How many that were.
///
/// What is cut off is passed once and never again.
pub(crate) fn drop_behind(rows: &mut Vec<Row>, next: &mut Vec<Option<u64>>, ticket: usize) -> u64
    requires each { length next.old.items ≡ length rows.old.items }
    requires leads { (rest : List ℕ) × Leads next.old.items (ticket ∷ rest) × AreOnce (ticket ∷ rest) }
    ensures { IsCut rows.old.items next.old.items ticket rows.new.items next.new.items result }
{
    let mut dropped = 0;
    let mut place = next[ticket].take();
    while let Some(behind) = place {
        let index = behind as usize;
        if drop_at(rows, index) {
            dropped += 1;
        }
        place = next[index].take();
    }
    dropped
}
