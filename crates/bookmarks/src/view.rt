//! What a bookmark looks at.
ghost use Rattle.std.specs.Prelude.{◌≡◌};
ghost use Rattle.bookmarks.specs.Within.{has_window_size, lies_in_range, spans_plane};

/// A window has at most so many cells.
const MOST_WINDOW_CELLS: u64 = 65_536;

// Planes have the coordinates from -2^61 up to but not including 2^61.
const PLANE_REACH: i64 = 1 << 61;

/// What of a pattern a bookmark shows.
#[derive(Clone, Copy, Debug, PartialEq, Eq)]
pub enum View {
    /// The states of the cells of a rectangle whose top left cell is (left, top): a line for each
    /// row from the top, the states in decimal from the left with one space between. It has 1 to
    /// 65,536 cells, all of them in `-2^61 <= x, y < 2^61`.
    Window {
        left: i64,
        top: i64,
        width: u32,
        height: u32,
    },
    /// How many cells have each state but 0: a line `state count` for each state that is there,
    /// rising, or the line `empty`.
    Counts,
    /// The pattern as run-length encoded text, or the line `too many cells` where more than
    /// 1,000,000 cells are live.
    Rle,
    /// The pattern as macrocell text, a line for each of its distinct squares.
    Macrocell,
}

// Whether so many coordinates from the first on are among those of planes.
fn spans_plane(first: i64, count: u32) -> bool
    ensures { result ≡ spans_plane first count }
{
    -PLANE_REACH <= first && first <= PLANE_REACH - i64::from(count)
}

impl View {
    /// Whether it has 1 to 65,536 cells, if it is a window; any other view has the answer yes.
    pub fn has_window_size(&self) -> bool
        ensures { result ≡ has_window_size self.now }
    {
        match self {
            View::Window { width, height, .. } => {
                *width > 0
                    && *height > 0
                    && u64::from(*width) * u64::from(*height) <= MOST_WINDOW_CELLS
            }
            View::Counts | View::Rle | View::Macrocell => true,
        }
    }

    /// Whether its cells lie in `-2^61 <= x, y < 2^61`, if it is a window; any other view has the
    /// answer yes.
    pub fn lies_in_range(&self) -> bool
        ensures { result ≡ lies_in_range self.now }
    {
        match self {
            View::Window {
                left,
                top,
                width,
                height,
            } => spans_plane(*left, *width) && spans_plane(*top, *height),
            View::Counts | View::Rle | View::Macrocell => true,
        }
    }
}
