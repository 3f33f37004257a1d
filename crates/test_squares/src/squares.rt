//! Squares by their live cells, and what a call has to know of them.
ghost use Rattle.std.specs.Prelude.{◌≡◌, ◌<◌, ◌≤◌, ◌+◌, length, IsTrue};
ghost use Rattle.square_table.specs.Squares.{IsNumber, square_in, first_number};
ghost use Rattle.hash_life_laws.specs.Puts.{IsBelow};

use square_table::{SquareTable, TableFault};

/// A live cell, as far across and down from the upper left corner.
pub type Place = (u32, u32);

/// A glider under Conway's Life, one generation after another.
pub const GLIDER: [[Place; 5]; 9] = [
    [(13, 12), (14, 13), (12, 14), (13, 14), (14, 14)],
    [(12, 13), (14, 13), (13, 14), (14, 14), (13, 15)],
    [(14, 13), (12, 14), (14, 14), (13, 15), (14, 15)],
    [(13, 13), (14, 14), (15, 14), (13, 15), (14, 15)],
    [(14, 13), (15, 14), (13, 15), (14, 15), (15, 15)],
    [(13, 14), (15, 14), (14, 15), (15, 15), (14, 16)],
    [(15, 14), (13, 15), (15, 15), (14, 16), (15, 16)],
    [(14, 14), (15, 15), (16, 15), (14, 16), (15, 16)],
    [(15, 14), (16, 15), (14, 16), (15, 16), (16, 16)],
];

/// The number of the square of a level with these live cells, whose upper left corner is at (x, y).
pub fn square_of(
    table: &mut SquareTable<'_>,
    level: u8,
    x: u32,
    y: u32,
    cells: &[Place],
) -> Result<u32, TableFault> {
    if level == 0 {
        return Ok(u32::from(cells.contains(&(x, y))));
    }
    let level = level - 1;
    let half = 1u32.wrapping_shl(u32::from(level));
    let east = x.wrapping_add(half);
    let south = y.wrapping_add(half);
    let nw = square_of(table, level, x, y, cells)?;
    let ne = square_of(table, level, east, y, cells)?;
    let sw = square_of(table, level, x, south, cells)?;
    let se = square_of(table, level, east, south, cells)?;
    table.join_numbers([nw, ne, sw, se])
}

/// Whether it is the number of a square of the level.
#[tactic(auto, unfolding(square_table::specs::Squares::IsNumber))]
pub fn is_number(table: &SquareTable<'_>, level: u8, number: u32) -> bool
    ensures { IsTrue result → IsNumber table.now.rows level number }
{
    if level == 0 {
        return number < 256;
    }
    if number < 256 {
        return false;
    }
    if number - 256 >= table.len() {
        return false;
    }
    let [nw, ne, sw, se] = table.quadrants(number);
    is_number(table, level - 1, nw)
        && is_number(table, level - 1, ne)
        && is_number(table, level - 1, sw)
        && is_number(table, level - 1, se)
}

/// Whether each state of a square of the level is below a number.
#[tactic(auto, unfolding(square_table::specs::Squares::IsNumber, square_table::specs::Squares::square_in, hash_life_laws::specs::Puts::IsBelow))]
pub fn is_below(table: &SquareTable<'_>, level: u8, number: u32, count: u16) -> bool
    requires { IsNumber table.now.rows level number }
    ensures { IsTrue result → IsBelow count (square_in table.now.rows level number) }
{
    if level == 0 {
        return number < u32::from(count);
    }
    let [nw, ne, sw, se] = table.quadrants(number);
    is_below(table, level - 1, nw, count)
        && is_below(table, level - 1, ne, count)
        && is_below(table, level - 1, sw, count)
        && is_below(table, level - 1, se, count)
}
