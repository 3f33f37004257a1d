//! Scripts over posts that aren't prompt, and how many jobs are sent.
ghost use Rattle.std.specs.Prelude.{◌≤◌};
ghost use Rattle.desk_server.specs.Jobs.{IsFresh};

use crate::tests::devices::Pieces;
use crate::tests::posts::{Closes, Repeats, Reverses, Swallows};
use crate::tests::{SQUARES, answer_over, same};
use desk_server::{Entries, InlinePost, Post};
use revision_jobs::PostRecord;
use std::alloc::Global;
use std::process::Abort;
use std::sync::Wait;

// The first job is the text of the second bookmark, which needs no step; the next is the step to
// generation 1, and then comes the text of the first bookmark.
const SCRIPT: &[u8] = b"\
    set 0 0 1\n\
    mark 1 counts\n\
    mark 0 counts\n\
    settle\n\
    show 1\n\
    show 2\n\
    settle\n\
    quit\n";

const SETTLED: &[u8] = b"\
    ok 1\n\
    ok 2 bookmark 1\n\
    ok 3 bookmark 2\n\
    settled\n\
    bookmark 1 current 4\n\
    1 1\n\
    bookmark 2 current 4\n\
    1 1\n\
    settled\n\
    bye\n";

const NOTHING: &[u8] = b"\
    ok 1\n\
    ok 2 bookmark 1\n\
    ok 3 bookmark 2\n\
    unsettled 2 0\n\
    bookmark 1 pending\n\
    bookmark 2 pending\n\
    unsettled 2 0\n\
    bye\n";

// The whole script is answered by these replies, and so many numbers of jobs are below the floor
// of the post then.
fn answers_over<P: Post>(
    rt: &(impl Abort + Wait),
    alloc: Global,
    entries: &Entries,
    post: &mut P,
    script: &'static [u8],
    replies: &'static [u8],
    floor: u64,
)
    requires { IsFresh (P.view post.old) entries.now }
{
    let pieces = Pieces::whole(script);
    let (answered, told) = answer_over(rt, alloc, entries, post, pieces, Vec::new(alloc));
    same(rt, &answered, &Ok(()), &replies);
    same(rt, &told.as_slice(), &replies, &script);
    same(rt, &post.floor(), &floor, &replies);
}

fn swallows(
    rt: &(impl Abort + Wait),
    alloc: Global,
    ended: bool,
    script: &'static [u8],
    replies: &'static [u8],
    floor: u64,
) {
    let entries = Entries::new(alloc).expect(rt, "memory");
    let mut post = Swallows {
        entries: &entries,
        floor: 0,
        ended,
        history: PostRecord::none(),
    };
    answers_over(rt, alloc, &entries, &mut post, script, replies, floor);
}

// What was swallowed is given up, and asked for anew by each command that needs it.
#[test]
fn a_post_that_has_ended_leaves_bookmarks_pending(rt: HostRuntime) {
    let alloc = rt.alloc();
    swallows(&rt, alloc, true, SCRIPT, NOTHING, 8);
}

// It is asked a million times.
#[test]
fn a_post_that_never_answers_leaves_bookmarks_pending(rt: HostRuntime) {
    let alloc = rt.alloc();
    let replies = b"ok 1 bookmark 1\nunsettled 1 0\n";
    swallows(&rt, alloc, false, b"mark 0 counts\nsettle\n", replies, 1);
}

fn closes(
    rt: &(impl Abort + Wait),
    alloc: Global,
    left: u32,
    script: &'static [u8],
    replies: &'static [u8],
    floor: u64,
) {
    let entries = Entries::new(alloc).expect(rt, "memory");
    let mut post = Closes {
        inner: InlinePost::new(alloc, &entries, SQUARES),
        left,
        history: PostRecord::none(),
    };
    answers_over(rt, alloc, &entries, &mut post, script, replies, floor);
}

// What is known stays current.
#[test]
fn a_closed_post_leaves_bookmarks_pending(rt: HostRuntime) {
    let alloc = rt.alloc();
    closes(&rt, alloc, 0, SCRIPT, NOTHING, 0);
    closes(&rt, alloc, 3, SCRIPT, SETTLED, 3);
    let script = b"\
        mark 0 counts\n\
        settle\n\
        mark 1 counts\n\
        settle\n\
        show 1\n\
        show 2\n";
    let replies = b"\
        ok 1 bookmark 1\n\
        settled\n\
        ok 2 bookmark 2\n\
        unsettled 1 0\n\
        bookmark 1 current 6\n\
        empty\n\
        bookmark 2 pending\n";
    closes(&rt, alloc, 1, script, replies, 1);
}

#[test]
fn answers_may_come_twice(rt: HostRuntime) {
    let alloc = rt.alloc();
    let entries = Entries::new(alloc).expect(&rt, "memory");
    let mut post = Repeats::new(alloc, &entries, SQUARES);
    answers_over(&rt, alloc, &entries, &mut post, SCRIPT, SETTLED, 3);
}

#[test]
fn answers_may_come_in_another_order(rt: HostRuntime) {
    let alloc = rt.alloc();
    let entries = Entries::new(alloc).expect(&rt, "memory");
    let mut post = Reverses {
        first: InlinePost::new(alloc, &entries, SQUARES),
        last: InlinePost::new(alloc, &entries, SQUARES),
        floor: 0,
        history: PostRecord::none(),
    };
    answers_over(&rt, alloc, &entries, &mut post, SCRIPT, SETTLED, 3);
}

// Each `work` sends what is neither known nor out, whether or not it is answered.
#[test]
fn work_sends_what_is_needed(rt: HostRuntime) {
    let alloc = rt.alloc();
    let script = b"\
        mark 0 counts\n\
        mark 0 rle\n\
        work\n\
        work\n\
        settle\n\
        work\n";
    let replies = b"\
        ok 1 bookmark 1\n\
        ok 2 bookmark 2\n\
        working\n\
        working\n\
        unsettled 2 0\n\
        working\n";
    swallows(&rt, alloc, true, script, replies, 4);
    let script = b"mark 0 counts\nwork\nshow 1\n";
    let replies = b"ok 1 bookmark 1\nworking\nbookmark 1 pending\n";
    closes(&rt, alloc, 0, script, replies, 0);
}

// The first job is the step to generation 8. The intervention drops it, and its answer is stale.
const WORKED: &[u8] = b"\
    rule\n\
    @RULE X\n\
    @TABLE\n\
    n_states:2\n\
    neighborhood:oneDimensional\n\
    symmetries:none\n\
    0,1,0,1\n\
    0,0,1,1\n\
    1,0,0,0\n\
    1,1,1,0\n\
    end\n\
    set 0 0 1\n\
    mark 8 counts\n\
    work\n\
    at 4 set 0 0 1\n\
    settle\n\
    show 1\n";

const WORKED_REPLIES: &[u8] = b"\
    ok 1\n\
    ok 2\n\
    ok 3 bookmark 1\n\
    working\n\
    ok 4 intervention 1\n\
    settled\n\
    bookmark 1 current 4\n\
    1 4\n";

#[test]
fn an_edit_drops_what_work_sent(rt: HostRuntime) {
    let alloc = rt.alloc();
    let entries = Entries::new(alloc).expect(&rt, "memory");
    let mut post = InlinePost::new(alloc, &entries, SQUARES);
    answers_over(&rt, alloc, &entries, &mut post, WORKED, WORKED_REPLIES, 4);
    closes(&rt, alloc, 4, WORKED, WORKED_REPLIES, 4);
}

// The second bookmark is never computed, since the first is shown at once.
#[test]
fn a_current_bookmark_is_shown_at_once(rt: HostRuntime) {
    let alloc = rt.alloc();
    let entries = Entries::new(alloc).expect(&rt, "memory");
    let mut post = InlinePost::new(alloc, &entries, SQUARES);
    answers_over(
        &rt,
        alloc,
        &entries,
        &mut post,
        b"\
            mark 0 counts\n\
            show 1\n\
            mark 0 counts\n\
            show 1\n",
        b"\
            ok 1 bookmark 1\n\
            bookmark 1 current 6\n\
            empty\n\
            ok 2 bookmark 2\n\
            bookmark 1 current 6\n\
            empty\n",
        1,
    );
}

// The steps of two branches are out at once: to generation 2 of the one, and to where the other
// leaves it.
#[test]
fn work_sends_the_steps_of_two_branches(rt: HostRuntime) {
    let alloc = rt.alloc();
    let script = b"\
        branch 0 0\n\
        mark 2 counts\n\
        on 1 mark 2 counts\n\
        work\n";
    let replies = b"\
        ok 1 branch 1\n\
        ok 2 bookmark 1\n\
        ok 3 bookmark 2\n\
        working\n";
    swallows(&rt, alloc, true, script, replies, 2);
}

// What is dropped from a branch leaves the text of the line that it came from. What comes in below
// its fork leaves neither. The step to generation 4 is the one to generation 2 once more, so that
// five jobs are enough for the first settling.
#[test]
fn an_edit_is_felt_in_its_own_line(rt: HostRuntime) {
    let alloc = rt.alloc();
    let script = b"\
        set 0 0 1\n\
        branch 0 2\n\
        on 1 at 2 set 2 0 1\n\
        on 1 mark 4 counts\n\
        mark 4 counts\n\
        settle\n\
        drop 1\n\
        show 1\n\
        show 2\n\
        at 1 set 1 0 1\n\
        show 1\n\
        show 2\n";
    let replies = b"\
        ok 1\n\
        ok 2 branch 1\n\
        ok 3 intervention 1\n\
        ok 4 bookmark 1\n\
        ok 5 bookmark 2\n\
        settled\n\
        ok 6\n\
        bookmark 1 pending\n\
        bookmark 2 current 4\n\
        1 1\n\
        ok 7 intervention 2\n\
        bookmark 1 pending\n\
        bookmark 2 pending\n";
    closes(&rt, alloc, 5, script, replies, 5);
}
