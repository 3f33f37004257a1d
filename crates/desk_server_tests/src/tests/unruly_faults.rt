//! Devices that fail over posts that aren't prompt.
use crate::tests::devices::{Narrow, Pieces};
use crate::tests::posts::{Repeats, Swallows};
use crate::tests::{SQUARES, answer_over, same};
use desk_server::{Entries, RunFault};
use revision_jobs::PostRecord;
use std::alloc::Global;
use std::process::Abort;
use std::sync::Wait;

const SCRIPT: &[u8] = b"\
    set 0 0 1\n\
    mark 0 counts\n\
    work\n\
    settle\n\
    show 1\n\
    quit\n";

// Each answer comes twice, or none comes.
const REPEATED: &[u8] = b"\
    ok 1\n\
    ok 2 bookmark 1\n\
    working\n\
    settled\n\
    bookmark 1 current 4\n\
    1 1\n\
    bye\n";

const SWALLOWED: &[u8] = b"\
    ok 1\n\
    ok 2 bookmark 1\n\
    working\n\
    unsettled 1 0\n\
    bookmark 1 pending\n\
    bye\n";

// How the script ends over such a post, and what is written where so many bytes may be.
fn answer(
    rt: &(impl Abort + Wait),
    alloc: Global,
    repeats: bool,
    pieces: Pieces<'_>,
    limit: usize,
) -> (Result<(), RunFault>, Vec<u8>) {
    let entries = Entries::new(alloc).expect(rt, "memory");
    let narrow = Narrow {
        taken: Vec::new(alloc),
        limit,
    };
    let (answered, narrow) = if repeats {
        let mut post = Repeats::new(alloc, &entries, SQUARES);
        answer_over(rt, alloc, &entries, &mut post, pieces, narrow)
    } else {
        let mut post = Swallows {
            entries: &entries,
            floor: 0,
            ended: true,
            history: PostRecord::none(),
        };
        answer_over(rt, alloc, &entries, &mut post, pieces, narrow)
    };
    (answered, narrow.taken)
}

// A beginning of the replies is written, and the fault is told.
fn writing_fails(
    rt: &(impl Abort + Wait),
    alloc: Global,
    repeats: bool,
    replies: &[u8],
    limit: usize,
) {
    let (answered, told) = answer(rt, alloc, repeats, Pieces::whole(SCRIPT), limit);
    same(rt, &answered, &Err(RunFault::Write), &limit);
    same(rt, &told.len(), &limit, &limit);
    same(rt, &replies.starts_with(&told), &true, &limit);
}

#[test]
fn a_write_fails_over_a_post_that_repeats(rt: HostRuntime) {
    let alloc = rt.alloc();
    for limit in 0..REPEATED.len() {
        writing_fails(&rt, alloc, true, REPEATED, limit);
    }
}

#[test]
fn a_write_fails_over_a_post_that_swallows(rt: HostRuntime) {
    let alloc = rt.alloc();
    for limit in 0..SWALLOWED.len() {
        writing_fails(&rt, alloc, false, SWALLOWED, limit);
    }
}

// How many bytes of the replies stand for the first so many bytes of the script: those to the lines
// that were read with their ends, which end before 10, 24, 29, 36, 43 and 48.
fn replied(len: usize, settled: usize, shown: usize) -> usize {
    match len {
        0..=9 => 0,
        10..=23 => 5,
        24..=28 => 21,
        29..=35 => 29,
        36..=42 => settled,
        43..=47 => shown,
        _ => 66,
    }
}

// Where reading fails, the commands that were read whole are answered.
fn reading_fails(
    rt: &(impl Abort + Wait),
    alloc: Global,
    repeats: bool,
    len: usize,
    wanted: &[u8],
) {
    let pieces = Pieces {
        bytes: &SCRIPT[..len.min(SCRIPT.len())],
        size: 3,
        fails: true,
    };
    let (answered, told) = answer(rt, alloc, repeats, pieces, usize::MAX);
    same(rt, &answered, &Err(RunFault::Read), &len);
    same(rt, &told.as_slice(), &wanted, &len);
}

#[test]
fn a_read_fails_over_a_post_that_repeats(rt: HostRuntime) {
    let alloc = rt.alloc();
    for len in 0..48usize {
        let end = replied(len, 37, 62).min(REPEATED.len());
        reading_fails(&rt, alloc, true, len, &REPEATED[..end]);
    }
}

#[test]
fn a_read_fails_over_a_post_that_swallows(rt: HostRuntime) {
    let alloc = rt.alloc();
    for len in 0..48usize {
        let end = replied(len, 43, 62).min(SWALLOWED.len());
        reading_fails(&rt, alloc, false, len, &SWALLOWED[..end]);
    }
}
