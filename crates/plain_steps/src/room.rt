//! Patches large enough for some cells.
ghost use Rattle.std.specs.Prelude.{◌≡◌, ◌≤◌, All, OnOk, IsTrue, ◌↔◌, IfOk, map, ℤ, ◌<◌, unwrap_or};
ghost use Rattle.worlds.specs.World.{cell, blank as blank_world};
ghost use Rattle.worlds.specs.Lay.{lay};
ghost use Rattle.worlds.specs.Range.{IsInside};
ghost use Rattle.square_tree.specs.Cells.{blank, IsHeld, state_at};
ghost use Rattle.plain_steps.specs.Room.{HasRoomAround, CellHasRoom};

use plane_core::CellSet;
use square_tree::Patch;
use std::alloc::{AllocError, Global};

// The square of this level covers the range of planes.
const GREATEST_LEVEL: u8 = 62;

// Whether a cell and those around it lie in the patch's square.
fn has_room(patch: &Patch<Global>, cell: CellSet) -> bool
    requires { IsInside 1 cell.x cell.y }
    ensures { IsTrue result ↔ HasRoomAround patch.now.level cell.x cell.y }
{
    patch.holds(cell.x - 1, cell.y - 1) && patch.holds(cell.x + 1, cell.y + 1)
}

// Whether each cell and those around it lie in the patch's square.
fn all_have_room(patch: &Patch<Global>, cells: &[CellSet]) -> bool
    requires { All (λ c. IsInside 1 c.x c.y) cells.now }
    ensures { IsTrue result → All (CellHasRoom patch.now.level) cells.now }
{
    for cell in cells {
        if !has_room(patch, *cell) {
            return false;
        }
    }
    true
}

/// A patch that keeps all its cells, of the least level from 1 on in whose square the cells and
/// those around them lie.
pub(crate) fn patch_around(alloc: Global, cells: &[CellSet]) -> Patch<Global>
    requires { All (λ c. IsInside 1 c.x c.y) cells.now }
    ensures keeps { result ≡ blank result.level }
    ensures room { All (CellHasRoom result.level) cells.now }
{
    for level in 1..GREATEST_LEVEL {
        let patch = Patch::new(alloc, level);
        if all_have_room(&patch, cells) {
            return patch;
        }
    }
    Patch::new(alloc, GREATEST_LEVEL)
}

/// Sets the cells one after another in a patch that keeps all its cells.
pub(crate) fn set_all(patch: &mut Patch<Global>, cells: &[CellSet]) -> Result<(), AllocError>
    requires keeps { patch.old ≡ blank patch.old.level }
    requires held { All (λ c. (c.state < 256) × IsHeld patch.old.level c.x c.y) cells.now }
    ensures level { OnOk result (patch.new.level ≡ patch.old.level) }
    ensures states { OnOk result ((x y : ℤ) →
        unwrap_or (state_at patch.new x y) 0 ≡ cell (lay cells.now blank_world) x y) }
{
    for cell in cells {
        patch.set(cell.x, cell.y, cell.state as u8)?;
    }
    Ok(())
}
