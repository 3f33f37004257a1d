//! The thread that writes the lines.

use super::line::Line;
use super::screen::{Screen, one_second};
use super::stage::{Settling, Stage};
use desk_board::Viewer;
use std::sync::Wait;
use std::time::Clock;

// Writes the line for what the board shows, where the settling takes a second already.
fn show<R: Clock + Eprint>(rt: &R, stage: &mut Stage, viewer: Viewer) -> Viewer {
    let Stage::Settling(settling) = *stage else {
        return viewer;
    };
    let passed = match settling.since.elapsed(rt) {
        Ok(passed) if passed >= one_second() => passed,
        _ => return viewer,
    };
    let seen = match viewer.look() {
        Ok(seen) => seen,
        Err(viewer) => return viewer,
    };
    let line = Line::of(seen.snapshot(), passed.as_secs());
    // Where standard error takes nothing, nobody looks on.
    let _ = eprint!(rt; "\r{line}\x1b[K");
    *stage = Stage::Settling(Settling {
        is_shown: true,
        ..settling
    });
    seen.done()
}

/// Shows how far each settling is, until the screen is closed.
pub fn watch<R: Wait + Clock + Eprint>(rt: &R, screen: &Screen, viewer: Viewer) {
    let mut viewer = viewer;
    for _ in rt.forever() {
        let stage = screen.wait_for_work(rt);
        if stage.is_over() {
            break;
        }
        let mut stage = screen.wait_a_second(rt, stage);
        viewer = show(rt, &mut *stage, viewer);
    }
}
