//! Squares of one level side by side.
ghost use Rattle.std.specs.Prelude.{◌≡◌, ◌+◌, ◌/◌, ◌<◌, ◌^◌, ℕ, true, false, OnOk};
ghost use Rattle.plane_core.specs.Strips.{AreAhead, AreExtended, AreLeft, IsOutOfRow, IsReach, ends_before, number_at};

use std::alloc::AllocError;

/// Squares of one level that stand side by side in one row and are one square: those from the
/// column `x` on and before the column `end`, in the row `y`. Columns and rows are counted in
/// squares of that level, from those of the cell (-2^31, -2^31).
#[derive(Clone, Copy, Debug)]
pub struct Strip {
    pub x: u32,
    pub end: u32,
    pub y: u32,
    pub number: u32,
}

/// The number of the squares of a row from some column on and before the column `until`.
#[derive(Clone, Copy, Debug)]
pub struct Reach {
    pub number: u32,
    pub until: u64,
}

// No strip goes on behind this column.
const FAR: u64 = 1 << 32;

// Whether the strip ends before (x, y), in reading order.
fn is_before(strip: &Strip, x: u64, y: u64) -> bool
    ensures { result ≡ ends_before strip.now x y }
{
    if u64::from(strip.y) == y {
        u64::from(strip.end) <= x
    } else {
        u64::from(strip.y) < y
    }
}

/// What is left of the strips from (x, y) on.
pub fn past<'s>(strips: &'s [Strip], x: u64, y: u64) -> &'s [Strip]
    ensures { AreLeft strips.now result.now x y }
{
    for (i, strip) in strips.iter().enumerate() {
        if !is_before(strip, x, y) {
            return &strips[i..];
        }
    }
    &[]
}

/// The number at (x, y), which no strip comes before, and how far it reaches.
pub fn reach_at(strips: &[Strip], x: u64, y: u64) -> Reach
    requires ahead { AreAhead strips.now x y }
    requires x { x < 2 ^ 32 }
    ensures { IsReach strips.now x y result.number result.until }
{
    let Some(first) = strips.first() else {
        return Reach {
            number: 0,
            until: FAR,
        };
    };
    if u64::from(first.y) != y {
        return Reach {
            number: 0,
            until: FAR,
        };
    }
    let end = u64::from(first.end);
    if x < u64::from(first.x) {
        return Reach {
            number: 0,
            until: end.min(u64::from(first.x)),
        };
    }
    Reach {
        number: first.number,
        until: end,
    }
}

/// The row of the squares of one level more that the strip is in.
pub fn row_above(strip: &Strip) -> u64
    ensures value { result ≡ strip.now.y / 2 }
    ensures small { result < 2 ^ 31 }
{
    u64::from(strip.y / 2)
}

/// Whether the first strip is in this row.
pub fn is_in_row(strips: &[Strip], y: u64) -> bool
    ensures here { result ≡ true → (x : ℕ) → AreAhead strips.now x y → x + 1 < 2 ^ 32 }
    ensures out { result ≡ false → IsOutOfRow strips.now y }
{
    let Some(first) = strips.first() else {
        return false;
    };
    if u64::from(first.y) != y {
        return false;
    }
    prove!(u64::from(first.end) < FAR);
    true
}

/// The number at (x, y).
pub fn number_at(strips: &[Strip], x: u64, y: u64) -> u32
    requires { x < 2 ^ 32 }
    ensures { result ≡ number_at strips.now x y }
{
    reach_at(past(strips, x, y), x, y).number
}

/// Puts a strip behind others. A strip of empty squares isn't needed.
pub fn extend(strips: &mut Vec<Strip>, strip: Strip) -> Result<(), AllocError>
    ensures { OnOk result (AreExtended strips.old.items strips.new.items strip) }
{
    if strip.number == 0 {
        return Ok(());
    }
    strips.push(strip)?;
    Ok(())
}
