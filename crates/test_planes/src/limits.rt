//! Whether cells and planes keep the limits that calls ask for.
ghost use Rattle.std.specs.Prelude.{◌<◌, ◌↔◌, All, IsTrue};
ghost use Rattle.worlds.specs.Range.{AllBelow, CanBeLaid};
ghost use Rattle.plane_core.specs.Spans.{CanBeDrawn};

use plane_core::{CellSet, Plane, Span};

const EDGE: i64 = 1 << 61;

/// Whether a plane can have the cell.
pub fn can_be_laid(cell: &CellSet) -> bool
    ensures { IsTrue result ↔ CanBeLaid cell.now }
{
    -EDGE <= cell.x && cell.x < EDGE && -EDGE <= cell.y && cell.y < EDGE && cell.state < 256
}

/// Whether a plane can have each of the cells.
pub fn all_can_be_laid(cells: &[CellSet]) -> bool
    ensures { IsTrue result ↔ All CanBeLaid cells.now }
{
    cells.iter().all(|cell| can_be_laid(cell))
}

/// Whether a plane can have the cells of the span.
pub fn can_be_drawn(span: &Span) -> bool
    ensures { IsTrue result ↔ CanBeDrawn span.now }
{
    -EDGE <= span.x
        && span.x <= EDGE - i64::from(span.count)
        && -EDGE <= span.y
        && span.y < EDGE
        && span.state < 256
}

/// Whether a plane can have the cells of each of the spans.
pub fn all_can_be_drawn(spans: &[Span]) -> bool
    ensures { IsTrue result ↔ All CanBeDrawn spans.now }
{
    spans.iter().all(|span| can_be_drawn(span))
}

/// Whether each state of the plane is below this one.
pub fn is_below(plane: &Plane, states: u16) -> bool
    ensures { IsTrue result ↔ AllBelow states plane.now }
{
    u16::from(plane.greatest()) < states
}

/// Whether each of the states, as those at and around a cell, is below this count.
pub fn are_below(states: &[u8], count: u16) -> bool
    ensures { IsTrue result ↔ All (λ state. state < count) states.now }
{
    states.iter().all(|state| u16::from(*state) < count)
}
