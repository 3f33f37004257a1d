//! Places.

/// The place of a cell, or how far one lies from another.
#[derive(Clone, Copy, Debug)]
pub(crate) struct Spot {
    pub(crate) x: i64,
    pub(crate) y: i64,
}

/// How far the places at and around one lie from it, in the order of `Around`.
pub(crate) const OFFSETS: [Spot; 9] = [
    Spot { x: 0, y: 0 },
    Spot { x: 0, y: -1 },
    Spot { x: 1, y: -1 },
    Spot { x: 1, y: 0 },
    Spot { x: 1, y: 1 },
    Spot { x: 0, y: 1 },
    Spot { x: -1, y: 1 },
    Spot { x: -1, y: 0 },
    Spot { x: -1, y: -1 },
];
