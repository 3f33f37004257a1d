//! The live cells of a pattern that lie in a box.
//!
//! The walk passes over squares that are empty or lie apart from the box, so of a large pattern it
//! visits little more than the squares that hold the cells that it finds.
ghost use Rattle.std.specs.Prelude.{◌≡◌, [], ◌∷◌, ◌++◌, ◌<◌, ◌^◌, false, length, ℤ, pos, ◌+ℤ◌, ◌≤ℤ◌, ◌<ℤ◌, IfOk, OnOk, IsTrue};
ghost use Rattle.worlds.specs.Range.{IsInBox};
ghost use Rattle.worlds.specs.World.{World};
ghost use Rattle.plane_core.specs.Rows.{AreRows, world_of_rows};
ghost use Rattle.plane_core.specs.Part.{Covers, IsFrom, IsOnPlane, IsPart, Shows};
ghost use Rattle.plane_core.specs.Within.{AreLiveWithin, Gathers};

use crate::part::{Part, Spot, side};
use crate::row::SquareRow;
use std::alloc::{AllocError, Global};
use worlds::{Bounds, Cell};

// Whether none of so many coordinates from the start on is one of those from the first to the last.
fn misses(first: i64, last: i64, start: i64, side: u64) -> bool
    requires { IsFrom start side }
    ensures apart { IsTrue result → ((z : ℤ) → start ≤ℤ z → z <ℤ (start +ℤ pos side)
        → first ≤ℤ z → z ≤ℤ last → ⊥) }
    ensures near { result ≡ false → side ≡ 1 → (first ≤ℤ start) × (start ≤ℤ last) }
{
    if start > last {
        return true;
    }
    start + side as i64 <= first
}

// Whether the square lies apart from the box.
fn is_apart(within: &Bounds, part: Part) -> bool
    requires { IsOnPlane part }
    ensures apart { IsTrue result
        → ((x y : ℤ) → Covers part x y → IsInBox within.now x y → ⊥) }
    ensures near { result ≡ false → part.level ≡ 0
        → IsInBox within.now part.corner.x part.corner.y }
{
    let side = side(part.level);
    let Spot { x, y } = part.corner;
    if misses(within.left, within.right, x, side) {
        return true;
    }
    misses(within.top, within.bottom, y, side)
}

// Adds a live cell.
fn push_cell(found: &mut Vec<Cell>, spot: Spot, state: u8) -> Result<(), AllocError>
    ensures { OnOk result (found.new.items ≡
        found.old.items ++ record { x = spot.x; y = spot.y; state = state } ∷ []) }
{
    found.push(Cell {
        x: spot.x,
        y: spot.y,
        state,
    })?;
    Ok(())
}

// Adds the live cells of the square that lie in the box.
fn gather_within(
    rows: &[SquareRow],
    part: Part,
    within: &Bounds,
    found: &mut Vec<Cell>,
) -> Result<(), AllocError>
    requires { IsPart rows.now part }
    ensures { OnOk result ((w : World) → Shows w rows.now part
        → Gathers within.now w (Covers part) found.old.items found.new.items) }
{
    if part.number == 0 {
        return Ok(());
    }
    if is_apart(within, part) {
        return Ok(());
    }
    if part.level == 0 {
        return push_cell(found, part.corner, part.number as u8);
    }
    for q in 0..4 {
        gather_within(rows, part.quadrant(rows, q), within, found)?;
    }
    Ok(())
}

/// The live cells that lie in the box, each once.
pub fn live_within(
    alloc: Global,
    rows: &[SquareRow],
    within: &Bounds,
) -> Result<Vec<Cell>, AllocError>
    requires rows { AreRows rows.now }
    requires few { length rows.now < 2 ^ 32 }
    ensures { IfOk result (λ cells. AreLiveWithin within.now (world_of_rows rows.now) cells.items) }
{
    let mut found = Vec::new(alloc);
    gather_within(rows, Part::root(rows), within, &mut found)?;
    Ok(found)
}
