//! Devices that fail at each place of the first script.
use crate::tests::devices::{Flushes, Pieces};
use crate::tests::first::{FIRST, FIRST_REPLIES};
use crate::tests::{SQUARES, answer, answer_to, same};
use desk_server::RunFault;
use std::alloc::Global;
use std::process::Abort;
use std::sync::Wait;

// How many bytes of the first script were read where reading fails, and what is written.
struct Break {
    count: usize,
    replies: &'static [u8],
}

const BREAKS: &[Break] = &[
    Break {
        count: 0,
        replies: b"",
    },
    Break {
        count: 4,
        replies: b"",
    },
    Break {
        count: 5,
        replies: b"",
    },
    Break {
        count: 100,
        replies: b"",
    },
    Break {
        count: 110,
        replies: b"",
    },
    Break {
        count: 111,
        replies: b"ok 1\n",
    },
    Break {
        count: 120,
        replies: b"ok 1\n",
    },
    Break {
        count: 121,
        replies: b"ok 1\nok 2\n",
    },
    Break {
        count: 135,
        replies: b"ok 1\nok 2\nok 3 bookmark 1\n",
    },
    Break {
        count: 142,
        replies: b"\
            ok 1\n\
            ok 2\n\
            ok 3 bookmark 1\n\
            settled\n",
    },
    Break {
        count: 149,
        replies: b"\
            ok 1\n\
            ok 2\n\
            ok 3 bookmark 1\n\
            settled\n\
            bookmark 1 current 4\n\
            1 2\n",
    },
    Break {
        count: 153,
        replies: b"\
            ok 1\n\
            ok 2\n\
            ok 3 bookmark 1\n\
            settled\n\
            bookmark 1 current 4\n\
            1 2\n",
    },
];

fn reading_fails(rt: &(impl Abort + Wait), alloc: Global, row: &Break) {
    let pieces = Pieces {
        bytes: &FIRST[..row.count.min(FIRST.len())],
        size: 6,
        fails: true,
    };
    let (answered, told) = answer(rt, alloc, pieces, usize::MAX);
    same(rt, &answered, &Err(RunFault::Read), &row.count);
    same(rt, &told.as_slice(), &row.replies, &row.count);
}

#[test]
fn a_read_fails_at_each_place(rt: HostRuntime) {
    let alloc = rt.alloc();
    for row in BREAKS {
        reading_fails(&rt, alloc, row);
    }
}

fn writing_fails(rt: &(impl Abort + Wait), alloc: Global, limit: usize) {
    let (answered, told) = answer(rt, alloc, Pieces::whole(FIRST), limit);
    same(rt, &answered, &Err(RunFault::Write), &limit);
    same(rt, &told.len(), &limit, &limit);
    same(rt, &FIRST_REPLIES.starts_with(&told), &true, &limit);
}

#[test]
fn a_write_fails_at_each_place(rt: HostRuntime) {
    let alloc = rt.alloc();
    for limit in 0..FIRST_REPLIES.len() {
        writing_fails(&rt, alloc, limit);
    }
}

// Each of the six replies to the first script is handed on, and where that fails the run does.
fn flushing_fails(
    rt: &(impl Abort + Wait),
    alloc: Global,
    limit: usize,
    wanted: Result<(), RunFault>,
    count: usize,
) {
    let flushes = Flushes { count: 0, limit };
    let (answered, flushes) = answer_to(rt, alloc, SQUARES, Pieces::whole(FIRST), flushes);
    same(rt, &answered, &wanted, &limit);
    same(rt, &flushes.count, &count, &limit);
}

#[test]
fn a_flush_fails_at_each_reply(rt: HostRuntime) {
    let alloc = rt.alloc();
    for limit in 0..6 {
        flushing_fails(&rt, alloc, limit, Err(RunFault::Write), limit);
    }
    flushing_fails(&rt, alloc, 6, Ok(()), 6);
    flushing_fails(&rt, alloc, 7, Ok(()), 6);
}
