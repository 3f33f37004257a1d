//! Which lists of rows stand for a pattern.
ghost use Rattle.std.specs.Prelude.{◌↔◌, ◌≤◌, IsTrue};
ghost use Rattle.plane_core.specs.Rows.{AreKidsOf, AreRows, IsNumber, IsRow};

use crate::row::SquareRow;

// Whether a number names a square of this level.
fn is_number(rows: &[SquareRow], level: u8, number: u32) -> bool
    ensures { IsTrue result ↔ IsNumber rows.now level number }
{
    if level == 0 {
        return number < 256;
    }
    if number == 0 {
        return true;
    }
    let place = number as usize;
    if place > rows.len() {
        return false;
    }
    rows[place - 1].level == level
}

// Whether the kids of a row of this level name squares.
fn are_kids(rows: &[SquareRow], row: &SquareRow) -> bool
    requires { 1 ≤ row.now.level }
    ensures { IsTrue result ↔ AreKidsOf rows.now row.now }
{
    let kids = row.kids;
    let level = row.level - 1;
    if !is_number(rows, level, kids[0]) || !is_number(rows, level, kids[1]) {
        return false;
    }
    is_number(rows, level, kids[2]) && is_number(rows, level, kids[3])
}

// Whether a row may stand after these.
fn is_row(rows: &[SquareRow], row: &SquareRow) -> bool
    ensures { IsTrue result ↔ IsRow rows.now row.now }
{
    if row.level < 1 || row.level > 62 {
        return false;
    }
    are_kids(rows, row)
}

/// Whether a plane can be made of the rows: levels are from 1 to 62, at level 1 kids are states
/// below 256, and above it each is 0 or the number of an earlier row of one level less.
pub fn are_rows(rows: &[SquareRow]) -> bool
    ensures { IsTrue result ↔ AreRows rows.now }
{
    for (place, row) in rows.iter().enumerate() {
        if !is_row(&rows[..place], row) {
            return false;
        }
    }
    true
}
