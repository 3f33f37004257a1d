//! How far the live cells of a plane lie from the origin.
ghost use Rattle.std.specs.Prelude.{◌≡◌, ◌↔◌, ◌≤◌, ◌^◌, IsTrue};
ghost use Rattle.worlds.specs.Range.{HasMargin};
ghost use Rattle.step_engine.specs.Box.{IsInRange};
ghost use Rattle.step_engine.specs.Reach.{BoxLiesWithin, HasRoomFor, IsRoomLevel};

use plane_core::{Bounds, Plane};

// Whether a box in the range of planes lies in the square round the origin from -far up to far.
fn lies_within(bounds: Bounds, far: u64) -> bool
    requires range { IsInRange bounds }
    requires far { far ≤ 2 ^ 61 }
    ensures { IsTrue result ↔ BoxLiesWithin far bounds }
{
    let far = far as i64;
    if bounds.left < -far {
        return false;
    }
    if bounds.top < -far {
        return false;
    }
    if bounds.right >= far {
        return false;
    }
    if bounds.bottom >= far {
        return false;
    }
    true
}

// The side of a square of level k.
fn side(k: u8) -> u64
    requires { k ≤ 61 }
    ensures value { result ≡ 2 ^ k }
    ensures fits { result ≤ 2 ^ 61 }
{
    1 << k
}

// Whether the square of level k + 1 round the origin has room for so many generations.
fn has_room_for(plane: &Plane, generations: u64, k: u8) -> bool
    requires { k ≤ 61 }
    ensures room { IsTrue result → HasRoomFor generations k plane.now }
    ensures only { HasRoomFor generations k plane.now → IsTrue result }
    ensures most { k ≡ 61 → generations ≤ 2 ^ 60 → HasMargin generations plane.now → IsTrue result }
{
    let side = side(k);
    if generations > side {
        return false;
    }
    match plane.bounds() {
        None => true,
        Some(bounds) => lies_within(bounds, side - generations),
    }
}

/// The least k for which the square of level k + 1 round the origin has room for so many generations.
pub(crate) fn room_level(plane: &Plane, generations: u64) -> u8
    requires { (generations ≤ 2 ^ 60) × HasMargin generations plane.now }
    ensures { IsRoomLevel generations plane.now result }
{
    let mut k = 0;
    while !has_room_for(plane, generations, k) {
        k += 1;
    }
    k
}
