//! Squares with room round them.
ghost use Rattle.std.specs.Prelude.{◌≡◌, ◌≤◌, ◌^◌, ℕ, IfOk, IfSome, Err};
ghost use Rattle.worlds.specs.Range.{HasMargin};
ghost use Rattle.square_table.specs.Squares.{IsHeld, level_of};
ghost use Rattle.square_table.specs.Made.{IsFull};
ghost use Rattle.square_table.specs.Loading.{GrowsFor, IsRootLevel};
ghost use Rattle.step_engine.specs.Padded.{IsSquareOf, IsPadded, IsPaddedNumber, IsWidened, IsRooted, AddsPadded, AddsRound, AddsStart};

use crate::reach::room_level;
use plane_core::Plane;
use square_table::{Square, SquareTable, TableFault};

// The number of the square of one level more in whose middle a square stands, and which else is
// empty.
fn pad<'a>(table: &mut SquareTable<'a>, square: Square<'a>) -> Result<u32, TableFault>
    requires held { IsHeld table.old square }
    requires level { (1 ≤ level_of square) × (level_of square ≤ 62) }
    ensures padded { IfOk result (IsPaddedNumber table.old square.entry table.new) }
    ensures adds { AddsPadded table.old square.entry table.new }
    ensures full { result ≡ Err TableFault.NoRoom → IsFull table.new }
{
    let empty = table.blank(square.level() - 1)?.number();
    let [nw, ne, sw, se] = table.quadrants(square.number());
    let nw = table.join_numbers([empty, empty, empty, nw])?;
    let ne = table.join_numbers([empty, empty, ne, empty])?;
    let sw = table.join_numbers([empty, sw, empty, empty])?;
    let se = table.join_numbers([se, empty, empty, empty])?;
    table.join_numbers([nw, ne, sw, se])
}

// The square of one level more in whose middle a square stands, and which else is empty.
fn padded<'a>(table: &mut SquareTable<'a>, square: Square<'a>) -> Result<Square<'a>, TableFault>
    requires held { IsHeld table.old square }
    requires level { (1 ≤ level_of square) × (level_of square ≤ 62) }
    ensures padded { IfOk result (IsPadded table.old square.entry table.new) }
    ensures adds { AddsPadded table.old square.entry table.new }
    ensures full { result ≡ Err TableFault.NoRoom → IsFull table.new }
{
    let number = pad(table, square)?;
    Ok(table.square(square.level() + 1, number)?)
}

// A square round the origin, with empty ones round it until it has the level.
fn with_room<'a>(
    table: &mut SquareTable<'a>,
    square: Square<'a>,
    level: u8,
) -> Result<Square<'a>, TableFault>
    requires held { IsHeld table.old square }
    requires level { (1 ≤ level_of square) × (level_of square ≤ level) × (level ≤ 63) }
    ensures widened { IfOk result (IsWidened table.old square.entry level table.new) }
    ensures adds { AddsRound table.old square.entry level table.new }
    ensures full { result ≡ Err TableFault.NoRoom → IsFull table.new }
{
    let mut square = square;
    while square.level() < level {
        square = padded(table, square)?;
    }
    Ok(square)
}

// The square of a plane: the one that is known, where its level isn't above this one, or else one
// that is made of the plane's rows.
fn start<'a>(
    table: &mut SquareTable<'a>,
    known: Option<Square<'a>>,
    plane: &Plane,
    level: u8,
) -> Result<Square<'a>, TableFault>
    requires known { IfSome known (IsSquareOf table.old plane.now) }
    requires level { (j : ℕ) → IsRootLevel j plane.now → j ≤ level }
    ensures square { IfOk result (IsSquareOf table.new plane.now) }
    ensures level { IfOk result (λ square. level_of square ≤ level) }
    ensures grows { GrowsFor plane.now table.old table.new }
    ensures full { result ≡ Err TableFault.NoRoom → IsFull table.new }
{
    match known {
        Some(square) if square.level() <= level => Ok(square),
        _ => table.load(plane),
    }
}

/// The square of a plane round the origin, at the least level at which its middle has room for so
/// many generations. Where one of its squares is known, none of the plane's rows is looked up.
pub fn rooted<'a>(
    table: &mut SquareTable<'a>,
    known: Option<Square<'a>>,
    plane: &Plane,
    generations: u64,
) -> Result<Square<'a>, TableFault>
    requires known { IfSome known (IsSquareOf table.old plane.now) }
    requires room { (generations ≤ 2 ^ 60) × HasMargin generations plane.now }
    ensures root { IfOk result (IsRooted plane.now generations table.new) }
    ensures adds { AddsStart plane.now generations table.old table.new }
    ensures full { result ≡ Err TableFault.NoRoom → IsFull table.new }
{
    let level = room_level(plane, generations) + 2;
    let start = start(table, known, plane, level)?;
    with_room(table, start, level)
}
