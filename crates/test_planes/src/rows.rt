//! Planes, and their live cells, as the rows of tables.
ghost use Rattle.std.specs.Prelude.{◌≡◌, IfOk, IfSome, map};
ghost use Rattle.worlds.specs.World.{blank};
ghost use Rattle.worlds.specs.Lay.{lay};
ghost use Rattle.worlds.specs.Live.{live};
ghost use Rattle.test_planes.specs.Rows.{of_row, set_of};

use crate::limits::all_can_be_laid;
use plane_core::{CellSet, Plane};
use std::alloc::{AllocError, Global};

/// A cell as a row of a table gives it: x, y and its state.
pub type Row = (i64, i64, u16);

/// The cells that the rows set, in their order.
pub fn sets_of(alloc: Global, rows: &[Row]) -> Result<Vec<CellSet>, AllocError>
    ensures { IfOk result (λ sets. sets.items ≡ map set_of rows.now) }
{
    let mut sets = Vec::with_capacity(alloc, rows.len())?;
    for row in rows {
        sets.push(CellSet {
            x: row.0,
            y: row.1,
            state: row.2,
        })?;
    }
    Ok(sets)
}

/// The plane after the rows are laid on it, None where one lies outside the plane or there is no
/// memory.
pub fn laid(alloc: Global, plane: &Plane, rows: &[Row]) -> Option<Plane>
    ensures { IfSome result (λ later. later ≡ lay (map set_of rows.now) plane.now) }
{
    let sets = sets_of(alloc, rows).ok()?;
    if !all_can_be_laid(&sets) {
        return None;
    }
    plane.lay(&sets).ok()
}

/// The plane with the rows, laid in turn.
pub fn plane_of(alloc: Global, rows: &[Row]) -> Option<Plane>
    ensures { IfSome result (λ plane. plane ≡ lay (map set_of rows.now) blank) }
{
    laid(alloc, &Plane::empty(alloc), rows)
}

/// The live cells of a plane as rows: those of an upper line before those of a lower, and in a line
/// from the left. None where there are more than a thousand, or there is no memory.
pub fn rows_of(alloc: Global, plane: &Plane) -> Option<Vec<Row>>
    ensures { IfSome result (λ rows. map of_row rows.items ≡ live plane.now) }
{
    let cells = plane.live(1000).ok()??;
    let mut rows = Vec::with_capacity(alloc, cells.len()).ok()?;
    for cell in &cells {
        rows.push((cell.x, cell.y, u16::from(cell.state))).ok()?;
    }
    Some(rows)
}
