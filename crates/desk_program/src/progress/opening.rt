//! The board that is looked at.

use desk_board::{Publisher, Viewer, board, snapshot};
use desk_core::{Desk, Entries};
use std::alloc::Global;
use std::sync::Wait;

/// A board that shows an empty desk at first, with one viewer; none where memory or a viewer's place
/// is refused.
pub fn empty_board<'r, R: Wait>(
    rt: &'r R,
    alloc: Global,
    entries: &Entries,
) -> Option<(Publisher<&'r R>, Viewer)> {
    let desk = Desk::open(alloc, entries, 1).ok()?;
    let first = snapshot(alloc, &desk).ok()?;
    let (publisher, mut viewers) = board(rt, alloc, first, 1).ok()?;
    match viewers.pop() {
        Some(viewer) => Some((publisher, viewer)),
        None => {
            publisher.end();
            None
        }
    }
}
