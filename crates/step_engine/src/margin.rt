//! Whether a plane has room for some generations.
ghost use Rattle.std.specs.Prelude.{◌↔◌, IsTrue};
ghost use Rattle.worlds.specs.Range.{HasMargin};
ghost use Rattle.step_engine.specs.Box.{IsInRange, BoxHasMargin};

use plane_core::{Bounds, Plane};

// The range of planes, from the least coordinate up to but not including the one beyond.
const LEAST: i64 = -(1 << 61);

const BEYOND: i64 = 1 << 61;

// No place has more room than this to both sides.
const FARTHEST: u64 = 1 << 61;

/// Whether the plane has room for so many generations: each live cell lies at least that many
/// cells from the edges of the range of planes.
pub fn fits(plane: &Plane, generations: u64) -> bool
    ensures { IsTrue result ↔ HasMargin generations plane.now }
{
    match plane.bounds() {
        None => true,
        Some(bounds) => box_fits(bounds, generations),
    }
}

// Whether a box in the range of planes stays in it where its edges move out so far.
fn box_fits(bounds: Bounds, margin: u64) -> bool
    requires { IsInRange bounds }
    ensures { IsTrue result ↔ BoxHasMargin margin bounds }
{
    if margin > FARTHEST {
        return false;
    }
    let margin = margin as i64;
    if bounds.left < LEAST + margin {
        return false;
    }
    if bounds.top < LEAST + margin {
        return false;
    }
    if bounds.right >= BEYOND - margin {
        return false;
    }
    if bounds.bottom >= BEYOND - margin {
        return false;
    }
    true
}
