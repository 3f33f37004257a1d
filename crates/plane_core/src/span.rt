//! Cells side by side.
ghost use Rattle.std.specs.Prelude.{◌≡◌, All, IfOk};
ghost use Rattle.worlds.specs.Range.{CanBeLaid};
ghost use Rattle.plane_core.specs.Spans.{CanBeDrawn, cells_of_spans};

use std::alloc::{AllocError, Global};
use worlds::CellSet;

/// Cells side by side in one row that are to have one state: so many to the right from (x, y) on.
/// All of them lie in `-2^61 <= x, y < 2^61`, and the state is below 256, wherever it is drawn on a
/// plane.
#[derive(Clone, Copy, Debug)]
pub struct Span {
    pub x: i64,
    pub y: i64,
    pub count: u32,
    pub state: u16,
}

// The same cells, each of which is a span.
pub(crate) fn spans_of(alloc: Global, cells: &[CellSet]) -> Result<Vec<Span>, AllocError>
    requires { All CanBeLaid cells.now }
    ensures cells { IfOk result (λ spans. cells_of_spans spans.items ≡ cells.now) }
    ensures range { IfOk result (λ spans. All CanBeDrawn spans.items) }
{
    let mut spans = Vec::with_capacity(alloc, cells.len())?;
    for cell in cells {
        spans.push(Span {
            x: cell.x,
            y: cell.y,
            count: 1,
            state: cell.state,
        })?;
    }
    Ok(spans)
}
