//! A root that is larger than its pattern needs, and the smaller one in its middle.
ghost use Rattle.std.specs.Prelude.{◌≡◌, ◌-◌, ◌<◌, ◌≤◌, ◌^◌, suc, false, length, IfSome, IfNone, IfOk, OnOk};
ghost use Rattle.worlds.specs.Square.{Square};
ghost use Rattle.plane_core.specs.Rows.{IsNumber, IsLeastLevel, square_in, root_level, world_of_rows};
ghost use Rattle.plane_core.specs.Centre.{is_passed, is_alone, IsCorner, IsCentre, AreCentred, AreFilled, cornered};

use crate::part::root_level;
use crate::row::SquareRow;
use std::alloc::AllocError;

// Whether a kid is 0, or stands at the corner.
fn is_passed(corner: usize, place: usize, kid: u32) -> bool
    ensures { result ≡ is_passed corner place kid }
{
    corner == place || kid == 0
}

// Whether each of the kids but that at the corner is 0.
fn is_alone(kids: [u32; 4], corner: usize) -> bool
    ensures { result ≡ is_alone corner kids }
{
    is_passed(corner, 0, kids[0])
        && is_passed(corner, 1, kids[1])
        && is_passed(corner, 2, kids[2])
        && is_passed(corner, 3, kids[3])
}

// The number of the quadrant at the corner of a square, if the others are empty.
fn inner(rows: &[SquareRow], level: u8, number: u32, corner: usize) -> Option<u32>
    requires rows { AreFilled rows.now }
    requires level { 1 ≤ level }
    requires number { IsNumber rows.now level number }
    requires corner { corner < 4 }
    ensures some { IfSome result (IsCorner rows.now (level - 1) number corner) }
    ensures none { IfNone result ((s : Square) →
        square_in rows.now (suc (level - 1)) number ≡ cornered (level - 1) corner s → ⊥) }
{
    if number == 0 {
        return Some(0);
    }
    let kids = rows[number as usize - 1].kids;
    if is_alone(kids, corner) {
        Some(kids[corner])
    } else {
        None
    }
}

// The square in the middle of the root, if it holds the live cells and has a level of at least 1.
fn centre(rows: &[SquareRow]) -> Option<SquareRow>
    requires rows { AreFilled rows.now }
    ensures some { IfSome result (IsCentre rows.now) }
    ensures none { IfNone result (IsLeastLevel (root_level rows.now) (world_of_rows rows.now)) }
{
    let level = root_level(rows);
    if level == 1 {
        return None;
    }
    let root = rows[rows.len() - 1].kids;
    let nw = inner(rows, level - 1, root[0], 3)?;
    let ne = inner(rows, level - 1, root[1], 2)?;
    let sw = inner(rows, level - 1, root[2], 1)?;
    let se = inner(rows, level - 1, root[3], 0)?;
    Some(SquareRow {
        level: level - 1,
        kids: [nw, ne, sw, se],
    })
}

/// Adds smaller roots behind the root until one is the least that holds the live cells. Whether any
/// was added.
pub fn add_centres(rows: &mut Vec<SquareRow>) -> Result<bool, AllocError>
    requires rows { AreFilled rows.old.items }
    requires few { length rows.old.items < 2 ^ 32 }
    ensures centred { OnOk result (AreCentred rows.old.items rows.new.items) }
    ensures none { IfOk result (λ added. added ≡ false → rows.new.items ≡ rows.old.items) }
{
    let mut added = false;
    while let Some(row) = centre(rows) {
        if rows.len() >= u32::MAX as usize {
            return Err(AllocError);
        }
        rows.push(row)?;
        added = true;
    }
    Ok(added)
}
