//! The live cells of a pattern, row by row.
ghost use Rattle.std.specs.Prelude.{◌≡◌, ◌<◌, ◌^◌, length, map, IfOk};
ghost use Rattle.worlds.specs.Live.{live, of_cell};
ghost use Rattle.plane_core.specs.Rows.{AreRows, world_of_rows};

use crate::row::SquareRow;
use crate::within::live_within;
use std::alloc::{AllocError, Global};
use worlds::{Bounds, Cell};

/// The live cells row by row from the top, and in a row from the left.
pub fn live_cells(alloc: Global, rows: &[SquareRow]) -> Result<Vec<Cell>, AllocError>
    requires rows { AreRows rows.now }
    requires few { length rows.now < 2 ^ 32 }
    ensures { IfOk result (λ cells. map of_cell cells.items ≡ live (world_of_rows rows.now)) }
{
    let everywhere = Bounds {
        left: i64::MIN,
        top: i64::MIN,
        right: i64::MAX,
        bottom: i64::MAX,
    };
    let mut cells = live_within(alloc, rows, &everywhere)?;
    cells.sort_unstable_by_key(|cell| (cell.y, cell.x));
    Ok(cells)
}
