//! Rows behind others, and a root of one level more around the root.
ghost use Rattle.std.specs.Prelude.{◌≡◌, ◌-◌, ◌<◌, ◌≤◌, ◌^◌, suc, length, IfOk, OnOk};
ghost use Rattle.plane_core.specs.Rows.{AreRows, IsNumber, IsRow, square_in, root_level, world_of_rows};
ghost use Rattle.plane_core.specs.Centre.{cornered};
ghost use Rattle.plane_core.specs.Laid.{AreQuadrants, IsAdded, IsRaised, square_of};

use crate::part::root_level;
use crate::row::SquareRow;
use std::alloc::AllocError;

// The numbers of the quadrants of a square.
pub fn quadrants(rows: &[SquareRow], level: u8, number: u32) -> [u32; 4]
    requires rows { AreRows rows.now }
    requires level { 1 ≤ level }
    requires number { IsNumber rows.now level number }
    ensures { AreQuadrants rows.now (level - 1) number result }
{
    if number == 0 {
        return [0; 4];
    }
    rows[number as usize - 1].kids
}

// Adds a row, and gives its number.
pub fn push_row(rows: &mut Vec<SquareRow>, row: SquareRow) -> Result<u32, AllocError>
    requires rows { AreRows rows.old.items }
    requires row { IsRow rows.old.items row }
    ensures { IfOk result (λ n.
        IsAdded rows.old.items rows.new.items row.level n
        (square_of rows.old.items (row.level - 1) row.kids)) }
{
    if rows.len() >= u32::MAX as usize {
        return Err(AllocError);
    }
    rows.push(row)?;
    Ok(rows.len() as u32)
}

// Adds the square that has one quadrant, of this number, and is empty elsewhere.
fn push_cornered(
    rows: &mut Vec<SquareRow>,
    level: u8,
    number: u32,
    corner: usize,
) -> Result<u32, AllocError>
    requires rows { AreRows rows.old.items }
    requires level { (1 ≤ level) × (level ≤ 62) }
    requires number { IsNumber rows.old.items (level - 1) number }
    requires corner { corner < 4 }
    ensures { IfOk result (λ n.
        IsAdded rows.old.items rows.new.items level n
        (cornered (level - 1) corner (square_in rows.old.items (level - 1) number))) }
{
    let mut kids = [0; 4];
    kids[corner] = number;
    push_row(rows, SquareRow { level, kids })
}

/// Adds a root of one level more, of the same pattern.
pub fn raise(rows: &mut Vec<SquareRow>) -> Result<(), AllocError>
    requires rows { AreRows rows.old.items }
    requires few { length rows.old.items < 2 ^ 32 }
    requires level { root_level rows.old.items < 62 }
    ensures { OnOk result (IsRaised rows.old.items rows.new.items) }
{
    let level = root_level(rows);
    let kids = quadrants(rows, level, rows.len() as u32);
    let nw = push_cornered(rows, level, kids[0], 3)?;
    let ne = push_cornered(rows, level, kids[1], 2)?;
    let sw = push_cornered(rows, level, kids[2], 1)?;
    let se = push_cornered(rows, level, kids[3], 0)?;
    let row = SquareRow {
        level: level + 1,
        kids: [nw, ne, sw, se],
    };
    push_row(rows, row)?;
    Ok(())
}
