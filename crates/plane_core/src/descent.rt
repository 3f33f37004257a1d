//! The way down from the root to one cell.
ghost use Rattle.std.specs.Prelude.{◌≡◌, ◌<◌, ◌^◌, length};
ghost use Rattle.worlds.specs.World.{World, cell};
ghost use Rattle.plane_core.specs.Rows.{AreRows, world_of_rows};
ghost use Rattle.plane_core.specs.Part.{Covers, IsPart, Shows};

use crate::part::{Part, Spot};
use crate::row::SquareRow;

// The state of a cell of the square.
fn state_in(rows: &[SquareRow], part: Part, spot: Spot) -> u8
    requires part { IsPart rows.now part }
    requires spot { Covers part spot.x spot.y }
    ensures { (w : World) → Shows w rows.now part → result ≡ cell w spot.x spot.y }
{
    if part.level == 0 {
        return part.number as u8;
    }
    if part.number == 0 {
        return 0;
    }
    state_in(rows, part.quadrant(rows, part.quadrant_at(spot)), spot)
}

// The state of a cell of the world that the rows stand for.
pub fn state_at(rows: &[SquareRow], spot: Spot) -> u8
    requires rows { AreRows rows.now }
    requires few { length rows.now < 2 ^ 32 }
    ensures { result ≡ cell (world_of_rows rows.now) spot.x spot.y }
{
    let root = Part::root(rows);
    if root.covers(spot) {
        state_in(rows, root, spot)
    } else {
        0
    }
}
