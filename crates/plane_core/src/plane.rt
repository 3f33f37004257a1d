//! The pattern as the list of its distinct squares.
ghost use Rattle.std.specs.Prelude.{◌≡◌, ◌↔◌, ◌<◌, ◌≤◌, ◌^◌, ℕ, All, length, map, slice_index, IfNone, IfOk, IfSome, IsNone, IsTrue};
ghost use Rattle.worlds.specs.World.{cell, blank};
ghost use Rattle.worlds.specs.Lay.{lay};
ghost use Rattle.worlds.specs.Live.{count_of, live, of_cell, population};
ghost use Rattle.worlds.specs.Range.{CanBeLaid, HasMargin, IsBoundingBox, IsGreatest, IsInside};
ghost use Rattle.plane_core.specs.Rows.{AreRows, AreSquaresOf, world_of_rows};
ghost use Rattle.plane_core.specs.Spans.{CanBeDrawn, cells_of_spans};
ghost use Rattle.plane_core.specs.Walks.{AreWalked};
ghost use Rattle.plane_core.specs.Within.{AreLiveWithin};

use crate::canonical::{canonical, written};
use crate::counts::{counts, greatest_counted};
use crate::descent::state_at;
use crate::edges::bounds_of;
use crate::lay::lay_rows;
use crate::live::live_cells;
use crate::part::Spot;
use crate::row::{SquareRow, are_same};
use crate::shared_rows::SharedRows;
use crate::span::{Span, spans_of};
use crate::walk::walked;
use crate::weave::rows_of;
use crate::within::live_within;
use std::alloc::{AllocError, Global};
use std::marker::Model;
use worlds::{Bounds, Cell, CellSet};

/// The states of all cells, of which all but finitely many are 0. Contracts see it as a world.
///
/// Its live cells lie in `-2^61 <= x, y < 2^61`. It is kept as the rows of its distinct squares, as
/// many as have numbers, which count from 1 and are below 2^32. A call that would give the number
/// 2^32 is refused as one without memory. No pattern gets there within the memory of a machine,
/// since 2^32 rows take over 100 GB while they are made canonical.
pub struct Plane {
    rows: SharedRows,
    // By state, how many live cells have it.
    counts: [u128; 256],
    // The least box that holds the live cells.
    bounds: Option<Bounds>,
    alloc: Global,
}

// Written out, as a derived one is proved again in each crate above.
impl Drop for Plane {
    fn drop(self) {
        let Plane {
            rows: _,
            counts: _,
            bounds: _,
            alloc: _,
        } = self;
    }
}

impl Model for Plane {
    ghost use Rattle.std.specs.Prelude.{◌<◌, ◌^◌, length};
    ghost use Rattle.worlds.specs.World.{World, coded_world};
    ghost use Rattle.plane_core.specs.Rows.{world_of_rows, AreKept};
    ghost use Rattle.plane_core.specs.Measured.{AreMeasuredOf};

    ghost Value = { World };

    ghost coded = { coded_world };

    ghost view = { λ p. world_of_rows p.rows };

    ghost invariant = { λ p. AreKept p.rows × (length p.rows < 2 ^ 32) × AreMeasuredOf (world_of_rows p.rows) p.counts p.bounds };
}

impl Plane {
    /// The plane on which each cell has the state 0.
    pub fn empty(alloc: Global) -> Plane
        ensures { result ≡ blank }
    {
        Plane {
            rows: SharedRows::none(),
            counts: [0; 256],
            bounds: None,
            alloc,
        }
    }

    /// The plane that rows stand for, in which equal rows may stand twice and rows may be empty.
    pub fn from_squares(alloc: Global, rows: &[SquareRow]) -> Result<Plane, AllocError>
        requires { AreRows rows.now }
        ensures { IfOk result (λ plane. plane ≡ world_of_rows rows.now) }
    {
        if rows.len() > u32::MAX as usize {
            return Err(AllocError);
        }
        Plane::from_walked(alloc, walked(alloc, rows)?)
    }

    /// The same, of rows in the order in which a walk from their root completes them. They are kept
    /// as they are where that root is the least, which saves a walk.
    pub fn from_walked(alloc: Global, rows: Vec<SquareRow>) -> Result<Plane, AllocError>
        requires { AreWalked rows.items }
        ensures { IfOk result (λ plane. plane ≡ world_of_rows rows.items) }
    {
        if rows.len() > u32::MAX as usize {
            return Err(AllocError);
        }
        let mut rows = canonical(alloc, rows)?;
        rows.shrink_to_fit();
        let counts = counts(alloc, &rows)?;
        let bounds = bounds_of(alloc, &rows)?;
        Ok(Plane {
            rows: SharedRows::of(alloc, rows)?,
            counts,
            bounds,
            alloc,
        })
    }

    /// The state of the cell at (x, y), 0 outside the range of planes.
    pub fn get(&self, x: i64, y: i64) -> u8
        ensures state { result ≡ cell self.now x y }
        ensures outside { (IsInside 0 x y → ⊥) → result ≡ 0 }
    {
        state_at(self.rows.as_slice(), Spot { x, y })
    }

    /// An equal plane, which shares the rows of this one.
    pub fn copy(&self) -> Result<Plane, AllocError>
        ensures { IfOk result (λ plane. plane ≡ self.now) }
    {
        Ok(Plane {
            rows: self.rows.share()?,
            counts: self.counts,
            bounds: self.bounds,
            alloc: self.alloc,
        })
    }

    /// The plane after the cells are set in turn, so that the last mention of a cell wins.
    pub fn lay(&self, cells: &[CellSet]) -> Result<Plane, AllocError>
        requires { All CanBeLaid cells.now }
        ensures { IfOk result (λ plane. plane ≡ lay cells.now self.now) }
    {
        let mut rows = self.rows.as_slice().to_vec(self.alloc)?;
        lay_rows(self.alloc, &mut rows, &spans_of(self.alloc, cells)?)?;
        Plane::from_squares(self.alloc, &rows)
    }

    /// The plane with the cells of these spans alone, which are drawn in turn, so that the last
    /// mention of a cell wins. The list is let go before the rows of the plane are made, so both are
    /// never in memory together.
    pub fn from_spans(alloc: Global, spans: Vec<Span>) -> Result<Plane, AllocError>
        requires { All CanBeDrawn spans.items }
        ensures { IfOk result (λ plane. plane ≡ lay (cells_of_spans spans.items) blank) }
    {
        let rows = rows_of(alloc, &spans)?;
        drop(spans);
        Plane::from_squares(alloc, &rows)
    }

    /// The rows of the distinct squares that aren't empty, in the order in which the walk nw, ne,
    /// sw, se from the least root completes them, fewer than 2^32. Those of the empty plane are one
    /// row, of the empty square of level 1.
    pub fn squares(&self) -> Result<Vec<SquareRow>, AllocError>
        ensures squares { IfOk result (λ rows. AreSquaresOf self.now rows.items) }
        ensures few { IfOk result (λ rows. length rows.items < 2 ^ 32) }
    {
        written(self.alloc, self.rows.as_slice())
    }

    /// How many cells are live.
    pub fn population(&self) -> u128
        ensures { result ≡ population self.now }
    {
        self.counts.iter().sum()
    }

    /// The live cells row by row from the top, and in a row from the left; None where there are
    /// more than `limit`.
    pub fn live(&self, limit: u32) -> Result<Option<Vec<Cell>>, AllocError>
        ensures few { IfOk result (λ found. IfSome found (λ cells.
            (population self.now ≤ limit) × (map of_cell cells.items ≡ live self.now))) }
        ensures many { IfOk result (λ found. IfNone found (limit < population self.now)) }
    {
        if self.population() > u128::from(limit) {
            return Ok(None);
        }
        Ok(Some(live_cells(self.alloc, self.rows.as_slice())?))
    }

    /// The live cells that lie in the box, its edges included, each once. Squares that are empty or
    /// lie apart from the box are passed over.
    pub fn cells_within(&self, within: &Bounds) -> Result<Vec<Cell>, AllocError>
        ensures { IfOk result (λ cells. AreLiveWithin within.now self.now cells.items) }
    {
        live_within(self.alloc, self.rows.as_slice(), within)
    }

    /// The greatest state, 0 where no cell is live.
    pub fn greatest(&self) -> u8
        ensures { IsGreatest self.now result }
    {
        greatest_counted(&self.counts)
    }

    /// The least box that holds the live cells, None where no cell is live.
    pub fn bounds(&self) -> Option<Bounds>
        ensures none { IsNone result ↔ (self.now ≡ blank) }
        ensures some { IfSome result (λ b. IsBoundingBox b self.now) }
        ensures in_range { HasMargin 0 self.now }
    {
        self.bounds
    }

    /// How many live cells have each state, by state; the first count, that of the state 0, is 0.
    pub fn counts(&self) -> Result<[u128; 256], AllocError>
        ensures { IfOk result (λ counts.
            (s : ℕ) → s < 256 → slice_index counts s ≡ count_of self.now s) }
    {
        Ok(self.counts)
    }

    /// Whether the cells are the same.
    pub fn equals(&self, other: &Plane) -> bool
        ensures { IsTrue result ↔ (self.now ≡ other.now) }
    {
        are_same(self.rows.as_slice(), other.rows.as_slice())
    }
}
