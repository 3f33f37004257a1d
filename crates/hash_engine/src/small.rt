//! The squares of up to 4 by 4 cells of states 0 and 1, with which a table may begin.
//!
//! Under a rule of two states all squares consist of them. Where a table begins with them their numbers
//! say what cells they have, and none of them is looked for in the table.
ghost use Rattle.std.specs.Prelude.{◌≡◌, [], length, OnOk};
ghost use Rattle.hash_engine.specs.Small.{HasTwos, IsSmall, KeepsRest, four_kids, two_kids};

use square_table::{SquareTable, TableFault};

/// How many there are.
pub const SMALL_SQUARES: u32 = TWOS + FOURS;

// How many have 2 by 2 cells, and how many 4 by 4.
const TWOS: u32 = 1 << 4;

const FOURS: u32 = 1 << 16;

// The number of the first that has 2 by 2 cells.
const FIRST_TWO: u32 = 256;

/// The number of the first that has 4 by 4 cells.
pub(crate) const FIRST_FOUR: u32 = FIRST_TWO + TWOS;

// The cells of a square of 2 by 2, by its place among them.
fn two(place: u32) -> [u32; 4]
    ensures { result ≡ two_kids place }
{
    [place % 2, place / 2 % 2, place / 4 % 2, place / 8 % 2]
}

// The numbers of the quadrants of a square of 4 by 4 cells, by its place among them.
fn four(place: u32) -> [u32; 4]
    ensures { result ≡ four_kids place }
{
    [
        FIRST_TWO + place % 16,
        FIRST_TWO + place / 16 % 16,
        FIRST_TWO + place / 256 % 16,
        FIRST_TWO + place / 4096 % 16,
    ]
}

// Adds those of 2 by 2 cells to an empty table.
fn lay_twos(table: &mut SquareTable<'_>) -> Result<(), TableFault>
    requires { table.old.rows ≡ [] }
    ensures rest { KeepsRest table.old table.new }
    ensures twos { OnOk result (HasTwos 16 table.new.rows) }
    ensures count { OnOk result (length table.new.rows ≡ 16) }
{
    for place in 0..TWOS {
        table.join_numbers(two(place))?;
    }
    Ok(())
}

/// Adds all of them to an empty table. Where it is refused some have been added.
pub fn lay_small(table: &mut SquareTable<'_>) -> Result<(), TableFault>
    requires { table.old.rows ≡ [] }
    ensures rest { KeepsRest table.old table.new }
    ensures small { OnOk result (IsSmall table.new.rows) }
{
    table.reserve(SMALL_SQUARES);
    lay_twos(table)?;
    for place in 0..FOURS {
        table.join_numbers(four(place))?;
    }
    Ok(())
}
