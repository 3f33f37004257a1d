//! Viewers that look, each in a thread of its own.

use crate::editing::LAST;
use desk_board::{ShownRow, Viewer};
use std::alloc::{AllocError, Global};
use std::sync::Wait;
use std::thread::{JoinHandle, Threads};
use std::{fmt, thread};

/// What a viewer saw: the revision of the last snapshot and how many of its bookmarks were current,
/// and whether a revision was below one that it saw before.
#[derive(Clone, Copy, Debug)]
pub(crate) struct Watched {
    revision: u64,
    current: usize,
    fell: bool,
}

impl fmt::Display for Watched {
    fn fmt<W: fmt::Write>(&self, f: &mut fmt::Formatter<W>) -> fmt::Result {
        let falls = if self.fell {
            "a revision fell"
        } else {
            "no revision fell"
        };
        write!(
            f,
            "last revision {}, {} current, {falls}",
            self.revision, self.current
        )
    }
}

/// Starts a thread for each viewer.
pub(crate) fn start_all(
    rt: &impl Threads,
    alloc: Global,
    viewers: Vec<Viewer>,
) -> Result<Vec<JoinHandle<Watched>>, AllocError> {
    let mut watchers = Vec::with_capacity(alloc, viewers.len())?;
    for viewer in viewers {
        watchers.push(thread::spawn(rt, move || watch(viewer))?)?;
    }
    Ok(watchers)
}

/// Waits for the threads, and gives what each viewer saw.
pub(crate) fn join_all(
    rt: &(impl Threads + Wait),
    alloc: Global,
    watchers: Vec<JoinHandle<Watched>>,
) -> Result<Vec<Watched>, AllocError> {
    let mut all = Vec::with_capacity(alloc, watchers.len())?;
    for watcher in watchers {
        all.push(watcher.join(rt))?;
    }
    Ok(all)
}

// Looks until the last revision is there, or the board has ended.
fn watch(viewer: Viewer) -> Watched {
    let mut viewer = viewer;
    let mut watched = Watched {
        revision: 0,
        current: 0,
        fell: false,
    };
    for _ in 0..u64::MAX {
        let Ok(seen) = viewer.look() else {
            break;
        };
        let snapshot = seen.snapshot();
        let revision = snapshot.document().revision();
        watched = Watched {
            revision,
            current: current_of(snapshot.rows()),
            fell: watched.fell || revision < watched.revision,
        };
        viewer = seen.done();
        if revision == LAST {
            break;
        }
    }
    watched
}

// How many of the bookmarks have a text.
fn current_of(rows: &[ShownRow]) -> usize {
    rows.iter().filter(|row| row.text.is_some()).count()
}
