//! The one list of rows that a pattern is kept as.
ghost use Rattle.std.specs.Prelude.{◌≡◌, ◌<◌, ◌^◌, length, IfOk};
ghost use Rattle.plane_core.specs.Rows.{AreKept, world_of_rows, written};
ghost use Rattle.plane_core.specs.Walks.{AreWalked};

use crate::centre::add_centres;
use crate::row::SquareRow;
use crate::walk::walked;
use std::alloc::{AllocError, Global};

// The rows of the same pattern from the least root. Where that is their own they stay as they are:
// only rows that a smaller root was added to are walked once more.
pub fn canonical(alloc: Global, mut rows: Vec<SquareRow>) -> Result<Vec<SquareRow>, AllocError>
    requires rows { AreWalked rows.items }
    requires few { length rows.items < 2 ^ 32 }
    ensures kept { IfOk result (λ all. AreKept all.items) }
    ensures world { IfOk result (λ all. world_of_rows all.items ≡ world_of_rows rows.items) }
    ensures few { IfOk result (λ all. length all.items < 2 ^ 32) }
{
    if add_centres(&mut rows)? {
        return walked(alloc, &rows);
    }
    Ok(rows)
}

// The empty square of level 1.
const EMPTY: SquareRow = SquareRow {
    level: 1,
    kids: [0; 4],
};

// The rows as they are written: where there is none, that of the empty square.
pub fn written(alloc: Global, rows: &[SquareRow]) -> Result<Vec<SquareRow>, AllocError>
    ensures { IfOk result (λ all. all.items ≡ written rows.now) }
{
    match rows {
        [] => Vec::from_slice(alloc, &[EMPTY]),
        [..] => rows.to_vec(alloc),
    }
}
