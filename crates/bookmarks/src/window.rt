//! The text of a window.
//!
//! The live cells of the rectangle are found by one walk over the plane, and their states are set in
//! a list of the states of all its places, row by row. The text is read off that list.
ghost use Rattle.std.specs.Prelude.{◌≡◌, ℕ, ◌*◌, ◌+◌, ◌<◌, ◌≤◌, ◌++◌, All, IfOk, OnOk, IsTrue, take, drop, length, pos, ◌+ℤ◌, replicate};
ghost use Rattle.bookmarks.specs.Window.{IsIn, ShowsWindow, last_state, line_of, next_state, state_at, window_text};
ghost use Rattle.bookmarks.specs.Within.{spans_plane};

use itoa::Buffer;
use plane_core::{Bounds, Cell, Plane};
use std::alloc::{AllocError, Global};

/// A line for each row of the rectangle from the top, with the states from the left.
pub(crate) fn window_text(
    alloc: Global,
    plane: &Plane,
    left: i64,
    top: i64,
    width: u32,
    height: u32,
) -> Result<Vec<u8>, AllocError>
    requires small { width * height ≤ 65536 }
    requires inside { IsTrue (spans_plane left width) × IsTrue (spans_plane top height) }
    ensures { IfOk result (λ text. text.items ≡ window_text plane.now left top width height) }
{
    let states = states_of(alloc, plane, left, top, width, height)?;
    let mut text = Vec::new(alloc);
    for row in 0..height {
        push_row(&mut text, &states, row, width)?;
    }
    Ok(text)
}

// The states of the rectangle's places, row by row from the top.
fn states_of(
    alloc: Global,
    plane: &Plane,
    left: i64,
    top: i64,
    width: u32,
    height: u32,
) -> Result<Vec<u8>, AllocError>
    requires small { width * height ≤ 65536 }
    requires inside { IsTrue (spans_plane left width) × IsTrue (spans_plane top height) }
    ensures { IfOk result (λ states. ShowsWindow states.items plane.now left top width height) }
{
    let cells = plane.cells_within(&Bounds {
        left,
        top,
        right: left + i64::from(width) - 1,
        bottom: top + i64::from(height) - 1,
    })?;
    let mut states = vec![in alloc; 0; width as usize * height as usize]?;
    set_states(&mut states, &cells, left, top, width);
    Ok(states)
}

// Sets the states of the cells one after another, each at its column and row from (left, top).
fn set_states(states: &mut [u8], cells: &[Cell], left: i64, top: i64, width: u32)
    requires blank { states.old ≡ replicate (length states.old) 0 }
    requires small { length states.old ≤ 65536 }
    requires held { All (IsIn left top width (length states.old)) cells.now }
    ensures size { length states.new ≡ length states.old }
    ensures states { (x y : ℕ) → x < width → y * width + x < length states.old
        → state_at states.new width x y ≡ last_state cells.now (left +ℤ pos x) (top +ℤ pos y) 0 }
{
    for cell in cells {
        let column = (cell.x - left) as usize;
        let row = (cell.y - top) as usize;
        states[row * width as usize + column] = cell.state;
    }
}

// Adds the line of a row of the list.
fn push_row(text: &mut Vec<u8>, states: &[u8], row: u32, width: u32) -> Result<(), AllocError>
    requires row { row * width + width ≤ length states.now }
    ensures { OnOk result (text.new.items ≡ text.old.items
        ++ line_of (take width (drop (row * width) states.now))) }
{
    let first = row as usize * width as usize;
    push_line(text, &states[first..first + width as usize])
}

// Adds the line of some states.
fn push_line(text: &mut Vec<u8>, states: &[u8]) -> Result<(), AllocError>
    ensures { OnOk result (text.new.items ≡ text.old.items ++ line_of states.now) }
{
    for (column, state) in states.iter().enumerate() {
        push_state(text, column, *state)?;
    }
    text.push(b'\n')?;
    Ok(())
}

// Adds the state of a column, with a space before it in all but the first.
fn push_state(text: &mut Vec<u8>, column: usize, state: u8) -> Result<(), AllocError>
    ensures { OnOk result (text.new.items ≡ text.old.items ++ next_state column state) }
{
    if column > 0 {
        text.push(b' ')?;
    }
    text.extend_from_slice(Buffer::new().format(state).as_bytes())
}
