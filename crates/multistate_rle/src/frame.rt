//! Where a pattern lies.
ghost use Rattle.std.specs.Prelude.{◌≡◌};
ghost use Rattle.worlds.specs.Live.{live};
ghost use Rattle.worlds.specs.Range.{HasMargin};
ghost use Rattle.multistate_rle.specs.Frame.{frame_of, box_of};

use plane_core::Plane;

/// The left and the top of a pattern's bounding box, and its size. For the empty pattern all four
/// are 0.
#[derive(Clone, Copy, Debug, PartialEq, Eq)]
pub(crate) struct Frame {
    pub(crate) left: i64,
    pub(crate) top: i64,
    pub(crate) width: u64,
    pub(crate) height: u64,
}

impl Frame {
    /// The frame of the plane's pattern.
    pub(crate) fn around(plane: &Plane) -> Frame
        ensures frame { result ≡ frame_of (box_of (live plane.now)) }
        ensures in_range { HasMargin 0 plane.now }
    {
        let Some(bounds) = plane.bounds() else {
            return Frame {
                left: 0,
                top: 0,
                width: 0,
                height: 0,
            };
        };
        Frame {
            left: bounds.left,
            top: bounds.top,
            width: bounds.right.abs_diff(bounds.left) + 1,
            height: bounds.bottom.abs_diff(bounds.top) + 1,
        }
    }
}
