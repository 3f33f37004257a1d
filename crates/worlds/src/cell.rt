//! Cells of the plane.

/// A cell that is to have a state. Its place lies in `-2^61 <= x, y < 2^61`, and the state is
/// below 256, wherever it is laid on a plane.
#[derive(Clone, Copy, Debug, PartialEq, Eq)]
pub struct CellSet {
    pub x: i64,
    pub y: i64,
    pub state: u16,
}

/// A cell that isn't empty, with its state from 1 to 255.
#[derive(Clone, Copy, Debug, PartialEq, Eq)]
pub struct Cell {
    pub x: i64,
    pub y: i64,
    pub state: u8,
}

/// The least box that holds a pattern: its edges, each of which touches a live cell.
#[derive(Clone, Copy, Debug, PartialEq, Eq)]
pub struct Bounds {
    pub left: i64,
    pub top: i64,
    pub right: i64,
    pub bottom: i64,
}
