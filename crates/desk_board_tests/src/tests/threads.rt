//! Viewers in threads of their own.
use super::{opened_to_two, publish, revision_of, same};
use desk_board::{Publisher, Viewer};
use std::alloc::Global;
use std::process::Abort;
use std::sync::Wait;
use std::thread;

/// The last revision that is published.
const LAST: u64 = 2000;

/// A viewer is let look at most so often.
const LOOKS: u64 = 50_000_000;

/// What a viewer in a thread found: the greatest revision that it was shown, and whether one was
/// below an earlier one.
#[derive(Clone, Copy, Debug, PartialEq, Eq)]
struct Watched {
    greatest: u64,
    fell: bool,
}

impl Watched {
    fn and(self, revision: u64) -> Watched {
        Watched {
            greatest: self.greatest.max(revision),
            fell: self.fell || revision < self.greatest,
        }
    }
}

/// Looks until the last revision is shown.
fn watch(viewer: Viewer) -> Watched {
    let mut viewer = viewer;
    let mut watched = Watched {
        greatest: 0,
        fell: false,
    };
    for _ in 0..LOOKS {
        let (back, revision) = revision_of(viewer);
        viewer = back;
        let Some(revision) = revision else {
            break;
        };
        watched = watched.and(revision);
        if revision >= LAST {
            break;
        }
    }
    watched
}

fn publish_all<R: Abort + Wait>(rt: &R, alloc: Global, publisher: &mut Publisher<&R>) {
    for revision in 1..=LAST {
        publish(rt, alloc, publisher, revision);
    }
}

// No viewer is shown an earlier revision after a later one, and each is shown the last.
#[test]
fn no_revision_falls_in_two_threads(rt: HostRuntime) {
    let alloc = rt.alloc();
    let (mut publisher, one, other) = opened_to_two(&rt, alloc);
    let one = thread::spawn(&rt, move || watch(one)).expect(&rt, "a thread");
    let other = thread::spawn(&rt, move || watch(other)).expect(&rt, "a thread");
    publish_all(&rt, alloc, &mut publisher);
    let wanted = Watched {
        greatest: LAST,
        fell: false,
    };
    same(&rt, &one.join(&rt), &wanted, &"one");
    same(&rt, &other.join(&rt), &wanted, &"other");
    publisher.end();
}
