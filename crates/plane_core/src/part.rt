//! Squares at their places in a pattern.
//!
//! Every walk starts at the root and goes on to the quadrants of a square. What a walk says of the
//! cells that it meets is said of any world that the square shows, so it holds of the pattern.
ghost use Rattle.std.specs.Prelude.{◌≡◌, ◌↔◌, ◌-◌, ◌<◌, ◌≤◌, ◌^◌, length, IsTrue, ◌+ℤ◌, ◌≤ℤ◌, ◌<ℤ◌, pos, neg_ℤ, int_le};
ghost use Rattle.worlds.specs.World.{World};
ghost use Rattle.plane_core.specs.Rows.{AreRows, root_level, world_of_rows};
ghost use Rattle.plane_core.specs.Part.{Covers, IsFrom, IsKid, IsOnPlane, IsPart, IsQuadrant, IsRoot, Shows, east, quadrant_at, south};

use crate::row::SquareRow;

// The place of a cell.
#[derive(Clone, Copy, Debug)]
pub struct Spot {
    pub x: i64,
    pub y: i64,
}

// A square that stands in a pattern, by its number and its upper left cell.
#[derive(Clone, Copy, Debug)]
pub struct Part {
    pub level: u8,
    pub number: u32,
    pub corner: Spot,
}

// The side of a square of this level.
pub fn side(level: u8) -> u64
    requires { level ≤ 62 }
    ensures value { result ≡ 2 ^ level }
    ensures small { result ≤ 2 ^ 62 }
{
    1u64 << level
}

// The level of the root.
pub fn root_level(rows: &[SquareRow]) -> u8
    ensures level { result ≡ root_level rows.now }
    ensures low { AreRows rows.now → 1 ≤ result }
    ensures high { AreRows rows.now → result ≤ 62 }
{
    match rows.last() {
        Some(root) => root.level,
        None => 1,
    }
}

// The upper left cell of the square of this level with the cell (0, 0) in its middle.
pub fn corner_of(level: u8) -> Spot
    requires { (1 ≤ level) × (level ≤ 62) }
    ensures x { result.x ≡ neg_ℤ (pos (2 ^ (level - 1))) }
    ensures y { result.y ≡ neg_ℤ (pos (2 ^ (level - 1))) }
{
    let half = side(level - 1) as i64;
    Spot { x: -half, y: -half }
}

// How far a quadrant lies from the left edge of its square.
fn east(half: u64, q: usize) -> u64
    ensures { result ≡ east half q }
{
    if q % 2 == 1 { half } else { 0 }
}

// How far it lies from the upper edge.
fn south(half: u64, q: usize) -> u64
    ensures { result ≡ south half q }
{
    if q >= 2 { half } else { 0 }
}

// Whether a coordinate is one of so many from the start on.
pub fn spans(start: i64, far: u64, z: i64) -> bool
    requires { IsFrom start far }
    ensures { IsTrue result ↔ ((start ≤ℤ z) × (z <ℤ (start +ℤ pos far))) }
{
    start <= z && z < start + far as i64
}

// Whether it lies behind those.
fn is_past(start: i64, far: u64, z: i64) -> bool
    requires { IsFrom start far }
    ensures { result ≡ int_le (start +ℤ pos far) z }
{
    z >= start + far as i64
}

impl Part {
    // The root, with the cell (0, 0) in its middle.
    pub fn root(rows: &[SquareRow]) -> Part
        requires rows { AreRows rows.now }
        requires few { length rows.now < 2 ^ 32 }
        ensures { IsRoot rows.now result }
    {
        let level = root_level(rows);
        Part {
            level,
            number: rows.len() as u32,
            corner: corner_of(level),
        }
    }

    // Whether a cell lies in the square.
    pub fn covers(self, spot: Spot) -> bool
        requires { IsOnPlane self }
        ensures { IsTrue result ↔ Covers self spot.x spot.y }
    {
        let side = side(self.level);
        if !spans(self.corner.x, side, spot.x) {
            return false;
        }
        spans(self.corner.y, side, spot.y)
    }

    // Which of the quadrants nw, ne, sw and se holds a cell.
    pub fn quadrant_at(self, spot: Spot) -> usize
        requires { IsOnPlane self × (1 ≤ self.level) }
        ensures quadrant { result ≡ quadrant_at self spot.x spot.y }
        ensures few { result < 4 }
    {
        let half = side(self.level - 1);
        let Spot { x, y } = self.corner;
        match (is_past(y, half, spot.y), is_past(x, half, spot.x)) {
            (false, false) => 0,
            (false, true) => 1,
            (true, false) => 2,
            (true, true) => 3,
        }
    }

    // The number of a quadrant.
    fn kid(self, rows: &[SquareRow], q: usize) -> u32
        requires { IsPart rows.now self × (1 ≤ self.level) × (q < 4) }
        ensures { IsKid rows.now self q result }
    {
        if self.number == 0 {
            return 0;
        }
        rows[self.number as usize - 1].kids[q]
    }

    // The upper left cell of a quadrant.
    pub fn quadrant_corner(self, q: usize) -> Spot
        requires { IsOnPlane self × (1 ≤ self.level) × (q < 4) }
        ensures x { result.x ≡ self.corner.x +ℤ pos (east (2 ^ (self.level - 1)) q) }
        ensures y { result.y ≡ self.corner.y +ℤ pos (south (2 ^ (self.level - 1)) q) }
    {
        let half = side(self.level - 1);
        Spot {
            x: self.corner.x + east(half, q) as i64,
            y: self.corner.y + south(half, q) as i64,
        }
    }

    // A quadrant.
    pub fn quadrant(self, rows: &[SquareRow], q: usize) -> Part
        requires { IsPart rows.now self × (1 ≤ self.level) × (q < 4) }
        ensures part { IsPart rows.now result }
        ensures place { IsQuadrant q self result }
        ensures cells { (w : World) → Shows w rows.now self → Shows w rows.now result }
    {
        Part {
            level: self.level - 1,
            number: self.kid(rows, q),
            corner: self.quadrant_corner(q),
        }
    }
}
