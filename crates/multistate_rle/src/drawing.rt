//! Drawing a pattern, run by run.
ghost use Rattle.std.specs.Prelude.{◌≡◌, ◌+◌, ◌<◌, ◌≤◌, [], ◌∷◌, ◌++◌, ◌&&◌, All, IsTrue, OnOk, Err, pos, ◌+ℤ◌};
ghost use Rattle.basics.specs.Results.{Gives};
ghost use Rattle.plane_core.specs.Spans.{CanBeDrawn};
ghost use Rattle.multistate_rle.specs.Pattern.{cells_of_strip, is_in_range, lies_inside};
ghost use Rattle.multistate_rle.specs.Drawing.{IsLike, WantsAlone, after_cells, after_rows, given_up, strip_at, undrawn, with_strip, world_drawn};

use crate::comment::Origin;
use crate::fault::RleFault;
use plane_core::{Plane, Span};
use std::alloc::{AllocError, Global};
use std::marker::Model;

// The most live cells that a pattern may have.
const LIVE_LIMIT: u64 = 16_777_216;

/// A pattern that is being drawn from the top left.
///
/// Where a growth is refused the cells are given up, and from then on only faults are looked for,
/// since a fault of the file comes before NoMemory.
///
/// Counts, rows and columns beyond 2^64 - 1 stand at that number: wherever the pattern begins, a
/// cell there lies outside the plane, and so many live cells are too many.
#[derive(Drop)]
pub(crate) struct Drawing {
    origin: Origin,
    row: u64,
    column: u64,
    live: u64,
    is_inside: bool,
    is_whole: bool,
    spans: Vec<Span>,
    alloc: Global,
}

impl Model for Drawing {
    ghost use Rattle.std.specs.Prelude.{All};
    ghost use Rattle.plane_core.specs.Spans.{CanBeDrawn, cells_of_spans};
    ghost use Rattle.multistate_rle.specs.Drawing.{Drawn};

    ghost Value = { Drawn };

    ghost view = { λ d. record {
      origin = d.origin;
      row = d.row;
      column = d.column;
      live = d.live;
      is_inside = d.is_inside;
      is_whole = d.is_whole;
      cells = cells_of_spans d.spans.items;
    } };

    ghost invariant = { λ d. All CanBeDrawn d.spans.items };
}

impl Drawing {
    /// Nothing yet; the pattern begins at this place.
    pub(crate) fn new(alloc: Global, origin: Origin) -> Drawing
        ensures { result ≡ undrawn origin }
    {
        Drawing {
            origin,
            row: 0,
            column: 0,
            live: 0,
            is_inside: true,
            is_whole: true,
            spans: Vec::new(alloc),
            alloc,
        }
    }

    /// Ends so many rows.
    pub(crate) fn end_rows(&mut self, count: u64)
        ensures { self.new ≡ after_rows self.old count }
    {
        self.row = self.row.saturating_add(count);
        self.column = 0;
    }

    /// Draws so many cells of this state.
    pub(crate) fn draw(&mut self, count: u64, state: u8)
        requires { 0 < count }
        ensures { IsLike (after_cells self.old count state) self.new }
    {
        if state != 0 {
            self.draw_strip(count, state);
        }
        self.column = self.column.saturating_add(count);
    }

    // Notes so many live cells, and keeps them if all that is drawn can be laid.
    fn draw_strip(&mut self, count: u64, state: u8)
        requires { 0 < count }
        ensures { IsLike (with_strip self.old (strip_at self.old count state)) self.new }
    {
        self.live = self.live.saturating_add(count);
        self.is_inside = self.is_inside && self.has_room(count);
        if self.is_whole && self.live <= LIVE_LIMIT && self.is_inside {
            self.keep_strip(count, state);
        }
    }

    // Gives the cells up.
    fn give_up(&mut self)
        ensures { self.new ≡ given_up self.old }
    {
        self.is_whole = false;
        self.spans = Vec::new(self.alloc);
    }

    // Whether so many cells from here on lie in the plane.
    fn has_room(&self, count: u64) -> bool
        requires { 0 < count }
        ensures { result ≡ lies_inside self.now.origin (strip_at self.now count 1) }
    {
        let first = shifted(self.origin.x, self.column);
        let last = first + i128::from(count) - 1;
        let y = shifted(self.origin.y, self.row);
        are_in_range(first, last, y)
    }

    // Keeps so many cells from here on, or gives all of them up.
    fn keep_strip(&mut self, count: u64, state: u8)
        requires few { count ≤ LIVE_LIMIT }
        requires inside { IsTrue (lies_inside self.old.origin (strip_at self.old count state)) }
        ensures { let strip = strip_at self.old count state in
            let cells = self.old.cells ++ cells_of_strip self.old.origin strip in
            IsLike (record self.old { cells = cells }) self.new }
    {
        let span = Span {
            x: shifted(self.origin.x, self.column) as i64,
            y: shifted(self.origin.y, self.row) as i64,
            count: count as u32,
            state: u16::from(state),
        };
        if push_span(&mut self.spans, span).is_err() {
            self.give_up();
        }
    }

    /// The plane with all that was drawn.
    ///
    /// TooManyLive comes where more than 16,777,216 cells are live, else CellOutOfRange where one
    /// lies outside the plane. NoMemory comes only where there was no memory.
    pub(crate) fn plane(self) -> Result<Plane, RleFault>
        ensures plane { Gives RleFault.NoMemory result (world_drawn self) }
        ensures no_memory { result ≡ Err RleFault.NoMemory → WantsAlone (world_drawn self) }
    {
        if self.live > LIVE_LIMIT {
            return Err(RleFault::TooManyLive);
        }
        if !self.is_inside {
            return Err(RleFault::CellOutOfRange);
        }
        if !self.is_whole {
            return Err(RleFault::NoMemory);
        }
        Ok(Plane::from_spans(self.alloc, self.spans)?)
    }
}

// Adds a span.
fn push_span(spans: &mut Vec<Span>, span: Span) -> Result<(), AllocError>
    requires range { All CanBeDrawn spans.old.items }
    requires span { CanBeDrawn span }
    ensures range { All CanBeDrawn spans.new.items }
    ensures spans { OnOk result (spans.new.items ≡ spans.old.items ++ span ∷ []) }
{
    spans.push(span)?;
    Ok(())
}

// The coordinate so many cells behind another.
fn shifted(start: i64, by: u64) -> i128
    ensures { result ≡ start +ℤ pos by }
{
    i128::from(start) + i128::from(by)
}

fn are_in_range(first: i128, last: i128, y: i128) -> bool
    ensures { result ≡ (is_in_range first && (is_in_range last && is_in_range y)) }
{
    is_in_range(first) && is_in_range(last) && is_in_range(y)
}

// Whether planes have cells at this coordinate.
fn is_in_range(coordinate: i128) -> bool
    ensures { result ≡ is_in_range coordinate }
{
    -(1 << 61) <= coordinate && coordinate < 1 << 61
}
