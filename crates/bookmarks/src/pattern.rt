//! The text of a view of the pattern itself.
ghost use Rattle.std.specs.Prelude.{◌≡◌, IfOk};
ghost use Rattle.worlds.specs.Range.{AllBelow};
ghost use Rattle.bookmarks.specs.Rle.{pattern_text};

use multistate_rle::{MOST_WRITTEN, write_rle};
use plane_core::Plane;
use std::alloc::{AllocError, Global};

/// The pattern as run-length encoded text, or the line `too many cells`.
pub(crate) fn pattern_text(
    alloc: Global,
    plane: &Plane,
    name: &[u8],
    generation: u64,
    states: u16,
) -> Result<Vec<u8>, AllocError>
    requires { AllBelow states plane.now }
    ensures { IfOk result (λ text. text.items ≡ pattern_text plane.now name.now generation states) }
{
    if plane.population() > u128::from(MOST_WRITTEN) {
        return Vec::from_slice(alloc, b"too many cells\n");
    }
    write_rle(alloc, plane, name, generation, states)
}
