//! Interventions, and bookmarks that are moved and removed.
use crate::tests::{Row, row_is_answered};

const EDITS: &[Row] = &[
    // What is no command.
    Row {
        script: b"\
            at\n\
            at 1\n\
            at 1 set\n\
            at 1 set 0 0\n\
            at 1 0 0 1\n\
            at -1 set 0 0 1\n\
            at x set 0 0 1\n\
            at set 0 0 1\n\
            at 1 sets 0 0 1\n",
        replies: b"\
            refused 80 BadCommand 1\n\
            refused 80 BadCommand 2\n\
            refused 80 BadCommand 3\n\
            refused 80 BadCommand 4\n\
            refused 80 BadCommand 5\n\
            refused 80 BadCommand 6\n\
            refused 80 BadCommand 7\n\
            refused 80 BadCommand 8\n\
            refused 80 BadCommand 9\n",
    },
    Row {
        script: b"\
            change\n\
            change 1\n\
            change 1 2\n\
            change 1 2 set\n\
            change 1 set 0 0 1\n\
            change x 2 set 0 0 1\n\
            change 1 x set 0 0 1\n\
            drop\n\
            drop x\n\
            drop 1 2\n\
            drop -1\n",
        replies: b"\
            refused 80 BadCommand 1\n\
            refused 80 BadCommand 2\n\
            refused 80 BadCommand 3\n\
            refused 80 BadCommand 4\n\
            refused 80 BadCommand 5\n\
            refused 80 BadCommand 6\n\
            refused 80 BadCommand 7\n\
            refused 80 BadCommand 8\n\
            refused 80 BadCommand 9\n\
            refused 80 BadCommand 10\n\
            refused 80 BadCommand 11\n",
    },
    Row {
        script: b"\
            move\n\
            move 1\n\
            move 1 2 3\n\
            move x 2\n\
            move 1 x\n\
            unmark\n\
            unmark x\n\
            unmark 1 2\n",
        replies: b"\
            refused 80 BadCommand 1\n\
            refused 80 BadCommand 2\n\
            refused 80 BadCommand 3\n\
            refused 80 BadCommand 4\n\
            refused 80 BadCommand 5\n\
            refused 80 BadCommand 6\n\
            refused 80 BadCommand 7\n\
            refused 80 BadCommand 8\n",
    },
    // Ids that were not given.
    Row {
        script: b"\
            change 1 0 set 0 0 1\n\
            drop 1\n\
            move 1 0\n\
            unmark 1\n\
            change 0 0 set 0 0 1\n\
            drop 99999999999999999999\n\
            move 0 0\n\
            unmark 0\n",
        replies: b"\
            refused 43 NoSuchIntervention\n\
            refused 43 NoSuchIntervention\n\
            refused 44 NoSuchBookmark\n\
            refused 44 NoSuchBookmark\n\
            refused 43 NoSuchIntervention\n\
            refused 43 NoSuchIntervention\n\
            refused 44 NoSuchBookmark\n\
            refused 44 NoSuchBookmark\n",
    },
    // Interventions and bookmarks are counted apart, and no id is given twice.
    Row {
        script: b"\
            at 0 set 0 0 1\n\
            mark 0 counts\n\
            at 5 set 0 0 1\n\
            mark 5 counts\n\
            drop 2\n\
            unmark 2\n\
            at 6 set 0 0 1\n\
            mark 6 counts\n",
        replies: b"\
            ok 1 intervention 1\n\
            ok 2 bookmark 1\n\
            ok 3 intervention 2\n\
            ok 4 bookmark 2\n\
            ok 5\n\
            ok 6\n\
            ok 7 intervention 3\n\
            ok 8 bookmark 3\n",
    },
    // Cells that come in at a generation, under a rule by which each cell stays as it is.
    Row {
        script: b"\
            at 3 set 0 0 1\n\
            mark 2 counts\n\
            mark 3 counts\n\
            show 1\n\
            show 2\n\
            change 1 4 set 0 0 1 5 5 1\n\
            show 2\n\
            move 2 4\n\
            show 2\n\
            drop 1\n\
            show 2\n\
            unmark 1\n\
            show 1\n",
        replies: b"\
            ok 1 intervention 1\n\
            ok 2 bookmark 1\n\
            ok 3 bookmark 2\n\
            bookmark 1 current 6\n\
            empty\n\
            bookmark 2 current 4\n\
            1 1\n\
            ok 4\n\
            bookmark 2 current 6\n\
            empty\n\
            ok 5\n\
            bookmark 2 current 4\n\
            1 2\n\
            ok 6\n\
            bookmark 2 current 6\n\
            empty\n\
            ok 7\n\
            refused 44 NoSuchBookmark\n",
    },
];

#[test]
fn edits_are_answered(rt: HostRuntime) {
    let alloc = rt.alloc();
    for row in EDITS {
        row_is_answered(&rt, alloc, row);
    }
}
