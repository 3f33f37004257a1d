//! The least box that holds the live cells of a pattern, by four ways down from its root.
//!
//! The live cells that lie nearest to an edge are sought in a band: the squares of one level that lie
//! nearest to it, each once however often it stands there. A level down these are the quadrants on the
//! side of the edge, or, where all of those are empty, the others. No row is of an empty square, so
//! each band has live cells. Most patterns have bands of a few squares, so next to nothing of the rows
//! is read.
ghost use Rattle.std.specs.Prelude.{◌≡◌, ℕ, [], ◌∷◌, ◌++◌, ◌<◌, ◌≤◌, ◌-◌, ◌^◌, length, pos, ◌+ℤ◌, IfOk, OnOk};
ghost use Rattle.std.specs.List.{Contains};
ghost use Rattle.plane_core.specs.Rows.{AreKept, edge_of, root_level, world_of_rows};
ghost use Rattle.plane_core.specs.Centre.{AreFilled};
ghost use Rattle.plane_core.specs.Measured.{AreBoundsOf};
ghost use Rattle.plane_core.specs.Edges.{AreKids, IsBand, IsLeastDepth, if_live, edge_kids, opposite, quadrants};

use crate::part::{root_level, side};
use crate::row::SquareRow;
use std::alloc::{AllocError, Global};
use worlds::Bounds;

// An edge of a square.
#[derive(Clone, Copy)]
enum Edge {
    Left,
    Top,
    Right,
    Bottom,
}

impl Edge {
    // The edge on the other side.
    fn opposite(self) -> Edge
        ensures { result ≡ opposite self }
    {
        match self {
            Edge::Left => Edge::Right,
            Edge::Top => Edge::Bottom,
            Edge::Right => Edge::Left,
            Edge::Bottom => Edge::Top,
        }
    }

    // The two quadrants of a square on the side of the edge.
    fn quadrants(self) -> (usize, usize)
        ensures first { result.0 ≡ (quadrants self).0 }
        ensures second { result.1 ≡ (quadrants self).1 }
    {
        match self {
            Edge::Left => (0, 2),
            Edge::Top => (0, 1),
            Edge::Right => (1, 3),
            Edge::Bottom => (2, 3),
        }
    }
}

// Adds the number of a square, unless it is empty.
fn push_live(number: u32, found: &mut Vec<u32>) -> Result<(), AllocError>
    ensures { OnOk result (found.new.items ≡ found.old.items ++ if_live number) }
{
    if number != 0 {
        found.push(number)?;
    }
    Ok(())
}

// Adds the quadrants of a square on the side of the edge that aren't empty.
fn push_kids(row: SquareRow, edge: Edge, kids: &mut Vec<u32>) -> Result<(), AllocError>
    ensures { OnOk result (kids.new.items ≡ kids.old.items ++ edge_kids edge row) }
{
    let (first, second) = edge.quadrants();
    push_live(row.kids[first], kids)?;
    push_live(row.kids[second], kids)
}

// Leaves each number once.
fn thin(numbers: &mut Vec<u32>)
    ensures keeps { (n : ℕ) → Contains numbers.old.items n → Contains numbers.new.items n }
    ensures adds_none { (n : ℕ) → Contains numbers.new.items n → Contains numbers.old.items n }
{
    numbers.sort_unstable();
    numbers.dedup();
}

// The quadrants of a band on the side of the edge, each once.
fn kids_of(
    alloc: Global,
    rows: &[SquareRow],
    edge: Edge,
    level: u8,
    band: &[u32],
) -> Result<Vec<u32>, AllocError>
    requires rows { AreFilled rows.now }
    requires band { IsBand rows.now level band.now × (1 ≤ level) }
    ensures { IfOk result (λ kids. AreKids rows.now edge band.now kids.items) }
{
    let mut kids = Vec::new(alloc);
    for number in band {
        push_kids(rows[*number as usize - 1], edge, &mut kids)?;
    }
    thin(&mut kids);
    Ok(kids)
}

// How far the live cells of a band that lie nearest to the edge lie from it.
fn reach(
    alloc: Global,
    rows: &[SquareRow],
    edge: Edge,
    level: u8,
    band: &[u32],
) -> Result<u64, AllocError>
    requires rows { AreFilled rows.now }
    requires level { level ≤ 62 }
    requires band { IsBand rows.now level band.now }
    ensures { IfOk result (IsLeastDepth rows.now edge level band.now) }
{
    if level == 0 {
        return Ok(0);
    }
    let near = kids_of(alloc, rows, edge, level, band)?;
    if !near.is_empty() {
        return reach(alloc, rows, edge, level - 1, &near);
    }
    let far = kids_of(alloc, rows, edge.opposite(), level, band)?;
    let depth = reach(alloc, rows, edge, level - 1, &far)?;
    Ok(side(level - 1) + depth)
}

// How far the live cells of a pattern that lie nearest to the edge of its root lie from it.
#[tactic(auto, using(crate::proofs::Bands::of_root))]
fn reach_of(alloc: Global, rows: &[SquareRow], edge: Edge) -> Result<u64, AllocError>
    requires rows { AreKept rows.now }
    requires few { length rows.now < 2 ^ 32 }
    requires some { 0 < length rows.now }
    ensures { IfOk result (IsLeastDepth rows.now edge (root_level rows.now) (length rows.now ∷ [])) }
{
    reach(alloc, rows, edge, root_level(rows), &[rows.len() as u32])
}

// The box whose edges lie so far from those of a root of this level.
fn box_of(level: u8, left: u64, top: u64, right: u64, bottom: u64) -> Bounds
    requires level { (1 ≤ level) × (level ≤ 62) }
    requires inside { (left < 2 ^ level) × (top < 2 ^ level)
        × (right < 2 ^ level) × (bottom < 2 ^ level) }
    ensures left { result.left ≡ edge_of level +ℤ pos left }
    ensures top { result.top ≡ edge_of level +ℤ pos top }
    ensures right { (result.right +ℤ pos right) +ℤ pos 1 ≡ pos (2 ^ (level - 1)) }
    ensures bottom { (result.bottom +ℤ pos bottom) +ℤ pos 1 ≡ pos (2 ^ (level - 1)) }
{
    let half = side(level - 1) as i64;
    Bounds {
        left: left as i64 - half,
        top: top as i64 - half,
        right: half - 1 - right as i64,
        bottom: half - 1 - bottom as i64,
    }
}

/// The least box that holds the live cells of the pattern that rows stand for, None where no cell
/// is live.
#[tactic(auto, using(crate::proofs::Bands::of_world))]
pub fn bounds_of(alloc: Global, rows: &[SquareRow]) -> Result<Option<Bounds>, AllocError>
    requires rows { AreKept rows.now }
    requires few { length rows.now < 2 ^ 32 }
    ensures { IfOk result (AreBoundsOf (world_of_rows rows.now)) }
{
    if rows.is_empty() {
        return Ok(None);
    }
    let left = reach_of(alloc, rows, Edge::Left)?;
    let top = reach_of(alloc, rows, Edge::Top)?;
    let right = reach_of(alloc, rows, Edge::Right)?;
    let bottom = reach_of(alloc, rows, Edge::Bottom)?;
    Ok(Some(box_of(root_level(rows), left, top, right, bottom)))
}
