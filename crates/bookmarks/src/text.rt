//! The text of a view.
ghost use Rattle.std.specs.Prelude.{◌≡◌, IfOk};
ghost use Rattle.worlds.specs.Range.{AllBelow};
ghost use Rattle.bookmarks.specs.Text.{text_of};
ghost use Rattle.bookmarks.specs.Within.{KeepsViewLimits};

use crate::counts::counts_text;
use crate::pattern::pattern_text;
use crate::view::View;
use crate::window::window_text;
use multistate_macrocell::write_mc;
use plane_core::Plane;
use std::alloc::{AllocError, Global};

/// The text of a view of the plane, for a rule with this name and so many states, at a
/// generation. The plane's states are below `states`, and a window keeps its limits.
pub fn render(
    alloc: Global,
    view: &View,
    plane: &Plane,
    name: &[u8],
    states: u16,
    generation: u64,
) -> Result<Vec<u8>, AllocError>
    requires below { AllBelow states plane.now }
    requires within { KeepsViewLimits view.now }
    ensures { IfOk result
        (λ text. text.items ≡ text_of view.now plane.now name.now states generation) }
{
    match view {
        View::Window {
            left,
            top,
            width,
            height,
        } => window_text(alloc, plane, *left, *top, *width, *height),
        View::Counts => counts_text(alloc, plane),
        View::Rle => pattern_text(alloc, plane, name, generation, states),
        View::Macrocell => write_mc(alloc, plane, name, generation),
    }
}
