//! Two viewers look at a desk while it is edited.
//!
//! The main thread edits the desk, settles it after each edit and publishes a snapshot of it. Each
//! viewer looks all the time, in a thread of its own, until it sees the last revision or the board
//! ends. What is printed is what each saw last, and whether a revision was below one that it saw
//! before: it doesn't depend on how the threads take turns.
#![tactic(auto)]

ghost use Rattle.std.specs.Prelude.{◌≡◌};

mod editing;
mod watching;

use desk_board::{Publisher, Viewer, board, snapshot};
use desk_core::{Desk, Entries};
use editing::edit_all;
use std::alloc::Global;
use std::sync::Wait;
use std::thread::Threads;
use watching::{Watched, join_all, start_all};

/// How many viewers there are.
const VIEWERS: u8 = 2;

fn main(rt: HostRuntime) -> anyhow::Result<()> {
    let alloc = rt.alloc();
    let entries = Entries::new(alloc)?;
    let mut desk = Desk::open(alloc, &entries, 1)?;
    let first = snapshot(alloc, &desk)?;
    let (mut publisher, viewers) = board(&rt, alloc, first, VIEWERS)?;
    let watched = show(&rt, alloc, &entries, &mut desk, &mut publisher, viewers);
    publisher.end();
    let watched = watched?;
    for (viewer, watched) in (1..=VIEWERS).zip(&watched) {
        println!(rt; "viewer {viewer}: {watched}")?;
    }
    Ok(())
}

/// Edits the desk while the viewers look, and gives what each saw. Where a thread or an edit is
/// refused the viewers look on until the board ends.
fn show<R: Threads + Wait>(
    rt: &R,
    alloc: Global,
    entries: &Entries,
    desk: &mut Desk<'_>,
    publisher: &mut Publisher<&R>,
    viewers: Vec<Viewer>,
) -> anyhow::Result<Vec<Watched>>
    requires { desk.old.table ≡ entries.now }
{
    let watchers = start_all(rt, alloc, viewers)?;
    edit_all(rt, alloc, entries, desk, publisher)?;
    Ok(join_all(rt, alloc, watchers)?)
}
