//! Digests of terms: numbers by which most different terms are told apart without a walk.
ghost use Rattle.std.specs.Prelude.{◌≡◌};
ghost use Rattle.dps_terms.specs.Seen.{seen};
ghost use Rattle.dps_terms.specs.Digest.{mixed, digest};
ghost use Rattle.dps_terms.specs.CellDigest.{cell_digest, cells_digest};

use crate::TermRef;
use crate::cells::Cell;

/// A digest with one more number.
#[inline]
pub fn mixed(digest: u64, next: u64) -> u64
    ensures { result ≡ mixed digest next }
{
    let found = digest
        .wrapping_mul(0x9e37_79b9_7f4a_7c15)
        .wrapping_add(next);
    found ^ (found >> 32)
}

impl<'a> TermRef<'a> {
    /// A number that follows from the tree alone: equal trees have equal ones, and others seldom do.
    #[tactic(auto, using(crate::proofs::Digesting::digest_of_cells))]
    pub fn digest(self) -> u64
        ensures { result ≡ digest (seen self.entry) }
    {
        cells_digest(self.cells)
    }
}

#[tactic(auto, using(crate::proofs::Digesting::digest_next, crate::proofs::Digesting::digest_done))]
fn cells_digest(cells: &[Cell]) -> u64
    ensures { result ≡ cells_digest 0 cells.now }
{
    let mut digest = 0;
    for cell in cells {
        digest = cell_digest(digest, *cell);
    }
    digest
}

/// The kind of the cell, and its number.
#[inline]
fn cell_digest(digest: u64, cell: Cell) -> u64
    ensures { result ≡ cell_digest digest cell }
{
    match cell {
        Cell::App(sym, _, _) => mixed(mixed(digest, 8), u64::from(sym.number)),
        Cell::Declared(number) => mixed(mixed(digest, 1), u64::from(number)),
        Cell::At(number) => mixed(mixed(digest, 2), number),
        Cell::Private(number) => mixed(mixed(digest, 3), number),
        Cell::Var(number) => mixed(mixed(digest, 4), number),
        Cell::Ax(number) => mixed(mixed(digest, 5), u64::from(number)),
        Cell::Entry(number) => mixed(mixed(digest, 6), number),
        Cell::Rigid(number) => mixed(mixed(digest, 7), number),
    }
}
