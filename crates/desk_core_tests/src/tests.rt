//! Worked desks, with what they show and what is out.
mod bad_posts;
mod bench;
mod changes;
mod posts;
mod repeats;
mod takers;
mod unruly;

use bench::{Act, Bench, Wanted};
use changes::Change;
use desk_core::{Cause, Collected, EditFault, Edited, Entries, EvolveFault, Settling, View};
use std::alloc::Global;
use std::fmt::Debug;
use std::process::Abort;
use std::sync::Wait;

/// Stops the test where what was found isn't what was wanted.
fn same<T: PartialEq + Debug, A: Debug>(rt: &impl Abort, found: &T, wanted: &T, at: &A) {
    assert!(rt; found == wanted, "{at:?}: {found:?}, not {wanted:?}");
}

/// Does these acts, and then those, in a desk of the opening document that keeps so many steps.
fn play_keeping<R: Abort + Wait>(rt: &R, alloc: Global, facts: u32, before: &[Act], acts: &[Act]) {
    let entries = Entries::new(alloc).expect(rt, "memory");
    let mut bench = Bench::open(rt, alloc, &entries, facts);
    bench.act_all(rt, before);
    bench.act_all(rt, acts);
}

/// The same in a desk that keeps one.
fn play<R: Abort + Wait>(rt: &R, alloc: Global, before: &[Act], acts: &[Act]) {
    play_keeping(rt, alloc, 1, before, acts);
}

// The rule X and the cell (0, 0) in state 1, at revision 2.
const ONE_CELL: &[Act] = &[
    Act::Edit(Change::Rule),
    Act::Edit(Change::Set(&[(0, 0, 1)])),
    Act::Revision(2),
];

// The same with counts at 8, at revision 3.
const AT_8: &[Act] = &[
    Act::Edit(Change::Rule),
    Act::Edit(Change::Set(&[(0, 0, 1)])),
    Act::Edit(Change::Mark(8)),
];

// Counts at 8 were computed, and then once more with an intervention at 4, which was removed again:
// five jobs, of which the steps lead from 0 to 8, from 0 to 4 and from 4 to 8.
const CHANGED_AND_PUT_BACK: &[Act] = &[
    Act::Edit(Change::Rule),
    Act::Edit(Change::Set(&[(0, 0, 1)])),
    Act::Edit(Change::Mark(8)),
    Act::Settle,
    Act::Edit(Change::Insert(4)),
    Act::Settle,
    Act::Given(5),
    Act::Edit(Change::Remove(1)),
    Act::Waits(1),
];

const STEP_IS_REMEMBERED: &[Act] = &[
    Act::Issue(5, Wanted::View(8)),
    Act::Work,
    Act::Collect(Collected::Accepted),
    Act::Shows(1, "1 2\n"),
];

const STEP_IS_FORGOTTEN: &[Act] = &[Act::Issue(5, Wanted::Step(8))];

// Under the opening rule the step from 4 to 8 is the one from 0 to 4 once more, so what comes of it
// is known as soon as that one is collected.
const STEP_IS_KNOWN_AT_ONCE: &[Act] = &[
    Act::Edit(Change::Mark(4)),
    Act::Edit(Change::Mark(8)),
    Act::Issue(0, Wanted::Step(4)),
    Act::Work,
    Act::Collect(Collected::Accepted),
    Act::Issue(1, Wanted::View(4)),
    Act::Issue(2, Wanted::View(8)),
    Act::Work,
    Act::Collect(Collected::Accepted),
    Act::Shows(2, "empty\n"),
    Act::Waits(1),
];

const OPENED: &[Act] = &[
    Act::Revision(0),
    Act::Rule("still"),
    Act::Pending(0),
    Act::Settle,
    Act::Lacks(0),
    Act::Lacks(1),
    Act::Lacks(u64::MAX),
];

const NOTHING_COUNTED: &[Act] = &[
    Act::Edited(
        Change::Mark(0),
        Edited {
            revision: 1,
            id: Some(1),
        },
    ),
    Act::Waits(1),
    Act::Pending(1),
    Act::Settle,
    Act::Shows(1, "empty\n"),
    Act::Pending(0),
    Act::Lacks(0),
    Act::Lacks(2),
];

const SEVEN_BOOKMARKS: &[Act] = &[
    Act::Edit(Change::Mark(2)),
    Act::Edit(Change::Mark(0)),
    Act::Edit(Change::Mark(3)),
    Act::Edit(Change::Mark(1)),
    Act::Edit(Change::Mark(2)),
    Act::Edit(Change::Mark(8)),
    Act::Edit(Change::Mark(7)),
    Act::Pending(7),
    Act::Settle,
    Act::Settle,
    Act::Pending(0),
    Act::Shows(1, "1 2\n"),
    Act::Shows(2, "1 1\n"),
    Act::Shows(3, "1 4\n"),
    Act::Shows(4, "1 2\n"),
    Act::Shows(5, "1 2\n"),
    Act::Shows(6, "1 2\n"),
    Act::Shows(7, "1 8\n"),
];

const VIEWED: &[Act] = &[
    Act::Edit(Change::View(View::Counts)),
    Act::Edit(Change::View(View::Window {
        left: -2,
        top: 0,
        width: 5,
        height: 1,
    })),
    Act::Edit(Change::View(View::Rle)),
    Act::Settle,
    Act::Shows(1, "1 2\n"),
    Act::Shows(2, "1 0 0 0 1\n"),
    Act::Shows(3, "#CXRLE Pos=-2,0 Gen=2\nx = 5, y = 1, rule = X\no3bo!\n"),
];

const TOUCHED: &[Act] = &[
    Act::Edit(Change::Mark(2)),
    Act::Settle,
    Act::Edit(Change::Set(&[])),
    Act::Pending(1),
    Act::Settle,
    Act::Shows(1, "1 2\n"),
    Act::Edit(Change::Set(&[(100, 0, 1)])),
    Act::Pending(1),
    Act::Settle,
    Act::Shows(1, "1 4\n"),
    Act::Edit(Change::Mark(3)),
    Act::Pending(1),
    Act::Settle,
    Act::Edit(Change::Rule),
    Act::Pending(2),
    Act::Settle,
    Act::Edit(Change::Insert(3)),
    Act::Pending(1),
    Act::Settle,
    Act::Shows(1, "1 4\n"),
    Act::Edit(Change::Set(&[(0, 0, 0)])),
    Act::Pending(2),
    Act::Settle,
    Act::Shows(1, "1 2\n"),
];

const REFUSED: &[Act] = &[
    Act::Edit(Change::Mark(2)),
    Act::Settle,
    Act::Edit(Change::Mark(1)),
    // The bookmark that was added is pending before settling, and then both are known.
    Act::Refused(Change::Set(&[(0, 0, 2)]), EditFault::CellStateTooHigh),
    Act::Refused(Change::Set(&[(1 << 60, 0, 1)]), EditFault::CellOutOfRange),
    Act::Refused(Change::Mark((1 << 60) + 1), EditFault::GenerationTooFar),
    Act::Pending(1),
    Act::Settle,
    Act::Shows(1, "1 2\n"),
    Act::Shows(2, "1 2\n"),
    Act::Refused(Change::Set(&[(0, 0, 2)]), EditFault::CellStateTooHigh),
    Act::Refused(Change::Set(&[(1 << 60, 0, 1)]), EditFault::CellOutOfRange),
    Act::Refused(Change::Mark((1 << 60) + 1), EditFault::GenerationTooFar),
    Act::Pending(0),
    Act::Revision(4),
    Act::Shows(1, "1 2\n"),
    Act::Shows(2, "1 2\n"),
];

// At generation 1 the cells (-1, 0) and (1, 0) are live; with (0, 0) they are three.
const AFTER_INTERVENTIONS: &[Act] = &[
    Act::Edit(Change::Mark(1)),
    Act::Edit(Change::Mark(0)),
    Act::Settle,
    Act::Shows(1, "1 2\n"),
    Act::Edit(Change::Insert(1)),
    Act::Settle,
    Act::Shows(1, "1 3\n"),
    Act::Shows(2, "1 1\n"),
    Act::Edit(Change::Remove(1)),
    Act::Settle,
    Act::Shows(1, "1 2\n"),
];

const MOVED: &[Act] = &[
    Act::Edit(Change::Mark(0)),
    Act::Edit(Change::Mark(2)),
    Act::Edit(Change::Move {
        id: 1,
        generation: 3,
    }),
    Act::Settle,
    Act::Shows(1, "1 4\n"),
    Act::Edit(Change::Unmark(1)),
    Act::Lacks(1),
    Act::Pending(0),
    Act::Shows(2, "1 2\n"),
];

const TOUCHED_WHILE_OUT: &[Act] = &[
    Act::Issue(0, Wanted::Step(8)),
    Act::Edit(Change::Insert(4)),
    Act::Work,
    Act::Collect(Collected::Stale {
        number: 0,
        revision: 4,
    }),
    Act::Waits(1),
    Act::Pending(1),
];

const COLLECTED_LATE: &[Act] = &[
    Act::Issue(0, Wanted::Step(8)),
    Act::Edit(Change::Mark(4)),
    Act::FirstOut(Some(0)),
    Act::Work,
    Act::Collect(Collected::Accepted),
    Act::Collect(Collected::Stale {
        number: 0,
        revision: 4,
    }),
    Act::Issue(1, Wanted::View(8)),
    Act::Work,
    Act::Collect(Collected::Accepted),
    Act::Shows(1, "1 2\n"),
    Act::Waits(2),
    Act::Given(2),
];

const UNDONE: &[Act] = &[
    Act::Issue(0, Wanted::Step(8)),
    Act::Edit(Change::Insert(4)),
    Act::Edit(Change::Remove(1)),
    Act::Work,
    Act::Collect(Collected::Stale {
        number: 0,
        revision: 5,
    }),
    Act::Waits(1),
    Act::Issue(1, Wanted::Step(8)),
];

const CANCELLED: &[Act] = &[
    Act::Issue(0, Wanted::Step(8)),
    Act::Cancel(0, true),
    Act::Cancel(0, false),
    Act::FirstOut(None),
    // Whoever works it is asked to stop.
    Act::Work,
    Act::Gave(EvolveFault::Stopped),
    Act::Collect(Collected::Stale {
        number: 0,
        revision: 3,
    }),
    // Nobody is asked to stop the job that is issued in its place.
    Act::Issue(1, Wanted::Step(8)),
    Act::Work,
    Act::Collect(Collected::Accepted),
];

const STOPPED: &[Act] = &[
    Act::Issue(0, Wanted::Step(8)),
    Act::Raise,
    Act::Work,
    Act::Collect(Collected::Released(EvolveFault::Stopped)),
    Act::Issue(1, Wanted::Step(8)),
];

const WORKED_BY_ANOTHER: &[Act] = &[
    Act::Issue(0, Wanted::Step(8)),
    Act::WorkOfAnother,
    Act::Collect(Collected::Stale {
        number: 0,
        revision: 3,
    }),
    Act::FirstOut(Some(0)),
];

// What is fed is out, and is computed by a later settling once it was given up.
const FED: &[Act] = &[
    Act::Feed(1),
    Act::FirstOut(Some(0)),
    Act::Given(1),
    Act::Waits(1),
    Act::Feed(0),
    Act::Cancel(0, true),
    Act::Settle,
    Act::Shows(1, "1 2\n"),
];

// The view at 0 and the step to 8 can both be computed at once. The post that takes one job has no
// room for the second, which is cancelled; what was known stays so.
const FED_TWICE: &[Act] = &[
    Act::Edit(Change::Mark(0)),
    Act::Feed(1),
    Act::FirstOut(Some(0)),
    Act::Given(2),
    Act::Cancel(0, true),
    Act::FirstOut(None),
    Act::FeedLosing(2),
    Act::FirstOut(Some(2)),
    Act::Cancel(2, true),
    Act::Cancel(3, true),
    Act::Settle,
    Act::Edit(Change::Mark(3)),
    Act::FeedClosed,
    Act::FirstOut(None),
    Act::Given(8),
    Act::Shows(1, "1 2\n"),
    Act::Shows(2, "1 1\n"),
    Act::Waits(3),
];

const LOST: &[Act] = &[
    Act::Lose(10),
    Act::FirstOut(Some(0)),
    Act::Cancel(0, true),
    Act::Settle,
    Act::Given(3),
    Act::Shows(1, "1 2\n"),
];

const WITHOUT_ROOM: &[Act] = &[
    Act::Edit(Change::Mark(1 << 60)),
    Act::SettleInNoRoom(Settling::Unsettled {
        pending: 1,
        cause: Some(Cause::NoRoom),
    }),
    Act::FirstOut(None),
];

// The flag that was raised is that of one job: the next settling issues another.
const STOPPED_WHILE_SETTLING: &[Act] = &[
    Act::SettleStopped,
    Act::FirstOut(None),
    Act::Waits(1),
    Act::Settle,
    Act::Shows(1, "1 2\n"),
];

// The first poll sends the step to 8. The second finds its pattern and sends the view, whose text the
// third finds.
const POLLED: &[Act] = &[
    Act::Poll(&[1, 1, 0, 0]),
    Act::Given(2),
    Act::FirstOut(None),
    Act::Shows(1, "1 2\n"),
];

// The view at 0 and the step to 8 can both be computed at once, but the post takes one job, so that
// the second is cancelled and issued anew.
const POLLED_TWICE: &[Act] = &[
    Act::Edit(Change::Mark(0)),
    Act::Poll(&[2, 1, 1, 0]),
    Act::Given(4),
    Act::Shows(1, "1 2\n"),
    Act::Shows(2, "1 1\n"),
];

const POLLED_WITHOUT_ROOM: &[Act] = &[
    Act::Edit(Change::Mark(1 << 60)),
    Act::PollInNoRoom(1),
    Act::FirstOut(None),
    Act::Given(1),
];

const POLLED_WHILE_CLOSED: &[Act] = &[Act::PollClosed(1), Act::FirstOut(None), Act::Given(1)];

const WITHOUT_TURNS: &[Act] = &[
    Act::SettleInNoTurn(Settling::Unsettled {
        pending: 1,
        cause: None,
    }),
    Act::Given(0),
];

#[test]
fn steps_that_were_computed_are_remembered(rt: HostRuntime) {
    let alloc = rt.alloc();
    play_keeping(&rt, alloc, 64, CHANGED_AND_PUT_BACK, STEP_IS_REMEMBERED);
    play_keeping(&rt, alloc, 4096, CHANGED_AND_PUT_BACK, STEP_IS_REMEMBERED);
    // Behind it there are two more.
    play_keeping(&rt, alloc, 3, CHANGED_AND_PUT_BACK, STEP_IS_REMEMBERED);
    play_keeping(&rt, alloc, 2, CHANGED_AND_PUT_BACK, STEP_IS_FORGOTTEN);
    play_keeping(&rt, alloc, 1, CHANGED_AND_PUT_BACK, STEP_IS_FORGOTTEN);
    play_keeping(&rt, alloc, 1, &[], STEP_IS_KNOWN_AT_ONCE);
}

#[test]
fn opens(rt: HostRuntime) {
    play(&rt, rt.alloc(), &[], OPENED);
}

#[test]
fn nothing_is_counted_as_empty(rt: HostRuntime) {
    play(&rt, rt.alloc(), &[], NOTHING_COUNTED);
}

#[test]
fn one_cell_under_x(rt: HostRuntime) {
    play(&rt, rt.alloc(), ONE_CELL, SEVEN_BOOKMARKS);
}

#[test]
fn views_of_x(rt: HostRuntime) {
    play(&rt, rt.alloc(), ONE_CELL, VIEWED);
}

#[test]
fn edits_forget_what_they_touch(rt: HostRuntime) {
    play(&rt, rt.alloc(), ONE_CELL, TOUCHED);
}

#[test]
fn refused_edits_change_nothing(rt: HostRuntime) {
    play(&rt, rt.alloc(), ONE_CELL, REFUSED);
}

#[test]
fn bookmark_shows_after_its_interventions(rt: HostRuntime) {
    play(&rt, rt.alloc(), ONE_CELL, AFTER_INTERVENTIONS);
}

#[test]
fn bookmark_is_moved_and_removed(rt: HostRuntime) {
    play(&rt, rt.alloc(), ONE_CELL, MOVED);
}

#[test]
fn touched_row_expects_nothing(rt: HostRuntime) {
    play(&rt, rt.alloc(), AT_8, TOUCHED_WHILE_OUT);
}

#[test]
fn kept_row_takes_a_late_answer_once(rt: HostRuntime) {
    play(&rt, rt.alloc(), AT_8, COLLECTED_LATE);
}

#[test]
fn edit_that_is_undone_brings_no_job_back(rt: HostRuntime) {
    play(&rt, rt.alloc(), AT_8, UNDONE);
}

#[test]
fn cancelled_job_is_stale(rt: HostRuntime) {
    play(&rt, rt.alloc(), AT_8, CANCELLED);
}

#[test]
fn stopped_job_is_released(rt: HostRuntime) {
    play(&rt, rt.alloc(), AT_8, STOPPED);
}

#[test]
fn desks_of_one_table_take_their_own_answers(rt: HostRuntime) {
    play(&rt, rt.alloc(), AT_8, WORKED_BY_ANOTHER);
}

#[test]
fn fed_job_is_out(rt: HostRuntime) {
    play(&rt, rt.alloc(), AT_8, FED);
}

#[test]
fn as_many_jobs_are_fed_as_the_post_takes(rt: HostRuntime) {
    play(&rt, rt.alloc(), AT_8, FED_TWICE);
}

#[test]
fn lost_job_stays_out(rt: HostRuntime) {
    play(&rt, rt.alloc(), AT_8, LOST);
}

#[test]
fn refused_job_is_cancelled(rt: HostRuntime) {
    let alloc = rt.alloc();
    for refusing in [Act::Closed(100), Act::Full(1), Act::Full(2)] {
        let acts = [refusing, Act::FirstOut(None), Act::Given(1)];
        play(&rt, alloc, AT_8, &acts);
    }
}

#[test]
fn too_little_room_is_told(rt: HostRuntime) {
    play(&rt, rt.alloc(), ONE_CELL, WITHOUT_ROOM);
}

#[test]
fn a_stop_is_told(rt: HostRuntime) {
    play(&rt, rt.alloc(), AT_8, STOPPED_WHILE_SETTLING);
}

#[test]
fn polls_settle_in_the_end(rt: HostRuntime) {
    let alloc = rt.alloc();
    play(&rt, alloc, &[], &[Act::Poll(&[0])]);
    play(&rt, alloc, AT_8, POLLED);
    play(&rt, alloc, AT_8, POLLED_TWICE);
}

#[test]
fn polls_tell_causes(rt: HostRuntime) {
    let alloc = rt.alloc();
    play(&rt, alloc, ONE_CELL, POLLED_WITHOUT_ROOM);
    play(&rt, alloc, AT_8, POLLED_WHILE_CLOSED);
}

#[test]
fn turns_are_kept_to(rt: HostRuntime) {
    play(&rt, rt.alloc(), AT_8, WITHOUT_TURNS);
}

#[test]
fn causes(rt: HostRuntime) {
    same(&rt, &Cause::NoMemory.number(), &70, &"memory");
    same(&rt, &Cause::NoRoom.number(), &71, &"room");
    same(&rt, &Cause::Stopped.number(), &72, &"a stop");
    same(&rt, &Cause::NumbersSpent.number(), &73, &"numbers");
}
