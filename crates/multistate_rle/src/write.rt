//! Writing a pattern.
ghost use Rattle.std.specs.Prelude.{◌≡◌, ◌≤◌, IfOk};
ghost use Rattle.worlds.specs.Live.{population};
ghost use Rattle.worlds.specs.Range.{AllBelow};
ghost use Rattle.multistate_rle.specs.PatternText.{rle_text};

use crate::body::Body;
use crate::frame::Frame;
use crate::written_head::write_head;
use plane_core::Plane;
use std::alloc::{AllocError, Global};

/// A pattern that is written has at most so many live cells.
pub const MOST_WRITTEN: u32 = 1_000_000;

/// The text of the plane's pattern at a generation, under a rule of this name and so many states.
/// At most 1,000,000 cells are live, and their states are below `states`.
///
/// The lines of the body have at most 70 bytes.
#[tactic(auto, using(crate::proofs::LiveCells::all_listed))]
pub fn write_rle(
    alloc: Global,
    plane: &Plane,
    name: &[u8],
    generation: u64,
    states: u16,
) -> Result<Vec<u8>, AllocError>
    requires few { population plane.now ≤ MOST_WRITTEN }
    requires below { AllBelow states plane.now }
    ensures { IfOk result (λ text. text.items ≡ rle_text plane.now name.now generation states) }
{
    let Some(cells) = plane.live(MOST_WRITTEN)? else {
        unreachable!();
    };
    let frame = Frame::around(plane);
    let mut body = Body::behind(write_head(alloc, &frame, name, generation)?, states);
    body.push_cells(&frame, &cells)?;
    body.close()
}
