//! What is replied where a step may keep too few squares.
use crate::tests::devices::Pieces;
use crate::tests::{Row, answer_to, same};
use std::alloc::Global;
use std::process::Abort;
use std::sync::Wait;

// Eight cells far from each other, whose plane has more than 64 distinct squares. The bookmark at
// generation 0 needs no step. Where the cells are gone there is room, and the step is made anew.
const FAR_APART: Row = Row {
    script: b"\
        set 0 0 1 1000 0 1 3000 7 1 7000 90 1 20000 300 1 50000 -70 1 -30000 0 1 -9999 -9999 1\n\
        mark 1 counts\n\
        mark 0 counts\n\
        mark 2 counts\n\
        settle\n\
        show 1\n\
        show 2\n\
        settle\n\
        set 1000 0 0 3000 7 0 7000 90 0 20000 300 0 50000 -70 0 -30000 0 0 -9999 -9999 0\n\
        settle\n\
        show 1\n\
        show 3\n",
    replies: b"\
        ok 1\n\
        ok 2 bookmark 1\n\
        ok 3 bookmark 2\n\
        ok 4 bookmark 3\n\
        unsettled 2 71\n\
        bookmark 1 pending\n\
        bookmark 2 current 4\n\
        1 8\n\
        unsettled 2 71\n\
        ok 5\n\
        settled\n\
        bookmark 1 current 4\n\
        1 1\n\
        bookmark 3 current 4\n\
        1 1\n",
};

// One cell at the last generation. An edit is taken then as ever.
const FAR_AHEAD: Row = Row {
    script: b"\
        rule\n\
        @RULE X\n\
        @TABLE\n\
        n_states:2\n\
        neighborhood:oneDimensional\n\
        symmetries:none\n\
        0,1,0,1\n\
        0,0,1,1\n\
        1,0,0,0\n\
        1,1,1,0\n\
        end\n\
        set 0 0 1\n\
        mark 1152921504606846976 counts\n\
        settle\n\
        show 1\n\
        set 5 0 1\n",
    replies: b"\
        ok 1\n\
        ok 2\n\
        ok 3 bookmark 1\n\
        unsettled 1 71\n\
        bookmark 1 pending\n\
        ok 4\n",
};

// The replies to a script where a step may keep 64 squares.
fn answers_in_64_squares(rt: &(impl Abort + Wait), alloc: Global, row: &Row) {
    let (answered, told) = answer_to(rt, alloc, 64, Pieces::whole(row.script), Vec::new(alloc));
    same(rt, &answered, &Ok(()), &row.script);
    same(rt, &told.as_slice(), &row.replies, &row.script);
}

#[test]
fn too_few_squares_leave_bookmarks_pending(rt: HostRuntime) {
    answers_in_64_squares(&rt, rt.alloc(), &FAR_APART);
    answers_in_64_squares(&rt, rt.alloc(), &FAR_AHEAD);
}
