//! Interventions that repeat: their commands, and what bookmarks show.
use crate::tests::{Row, row_is_answered};

const REPEATS: &[Row] = &[
    // The worked rows: counts at generations 2, 5 and 6 of a cell that is set at 2, 4 and 6.
    Row {
        script: b"\
            rule\n\
            @RULE X\n\
            @TABLE\n\
            n_states:2\n\
            neighborhood:oneDimensional\n\
            symmetries:none\n\
            0,1,0,1\n\
            0,0,1,1\n\
            1,0,0,0\n\
            1,1,1,0\n\
            end\n\
            set 0 0 1\n\
            every 2 2 6 set 0 0 1\n\
            mark 2 counts\n\
            mark 5 counts\n\
            mark 6 counts\n\
            settle\n\
            show 1\n\
            show 2\n\
            show 3\n",
        replies: b"\
            ok 1\n\
            ok 2\n\
            ok 3 intervention 1\n\
            ok 4 bookmark 1\n\
            ok 5 bookmark 2\n\
            ok 6 bookmark 3\n\
            settled\n\
            bookmark 1 current 4\n\
            1 3\n\
            bookmark 2 current 4\n\
            1 2\n\
            bookmark 3 current 4\n\
            1 5\n",
    },
    // Each generation counts up to the last bookmark alone.
    Row {
        script: b"\
            every 1 0 1152921504606846976 set 0 0 1\n\
            mark 8191 counts\n\
            mark 8192 counts\n\
            move 1 8192\n\
            branch 0 8192\n\
            show 1\n\
            every 1 8192 1152921504606846976 set 0 0 1\n\
            every 1 8191 8191 set 0 0 1\n\
            drop 1\n\
            mark 1152921504606846976 counts\n\
            change 2 every 1 0 1152921504606846976 set 0 0 1\n\
            change 2 every 1152921504606846976 0 1152921504606846976 set 1 0 1\n\
            mark 1152921504606846976 counts\n\
            show 2\n",
        replies: b"\
            ok 1 intervention 1\n\
            ok 2 bookmark 1\n\
            refused 54 TooManyMarks\n\
            refused 54 TooManyMarks\n\
            refused 54 TooManyMarks\n\
            bookmark 1 current 4\n\
            1 1\n\
            ok 3 intervention 2\n\
            refused 54 TooManyMarks\n\
            ok 4\n\
            refused 54 TooManyMarks\n\
            ok 5\n\
            ok 6\n\
            ok 7 bookmark 2\n\
            bookmark 2 current 4\n\
            1 1\n",
    },
    // A distance of 0 and an early end, and in which order that is looked at.
    Row {
        script: b"\
            rule\n\
            @RULE X\n\
            @TABLE\n\
            n_states:2\n\
            neighborhood:oneDimensional\n\
            symmetries:none\n\
            0,1,0,1\n\
            0,0,1,1\n\
            1,0,0,0\n\
            1,1,1,0\n\
            end\n\
            every 0 1 5 set 0 0 1\n\
            every 2 6 2 set 0 0 1\n\
            on 1 every 0 1 5 set 0 0 1\n\
            every 0 1152921504606846977 5 set 0 0 1\n\
            every 0 5 1152921504606846977 set 0 0 1\n\
            branch 0 3\n\
            on 1 every 0 2 5 set 0 0 1\n\
            on 1 every 1 2 5 set 0 0 2\n\
            on 1 every 1 3 5 set 0 0 2\n\
            change 1 every 0 1 5 set 0 0 1\n\
            at 0 set 0 0 1\n\
            change 1 every 0 1 5 set 0 0 1\n\
            change 1 every 1 1 1152921504606846977 set 0 0 1\n",
        replies: b"\
            ok 1\n\
            refused 55 BadRepeat\n\
            refused 55 BadRepeat\n\
            refused 50 NoSuchBranch\n\
            refused 40 GenerationTooFar\n\
            refused 40 GenerationTooFar\n\
            ok 2 branch 1\n\
            refused 55 BadRepeat\n\
            refused 51 BeforeFork\n\
            refused 42 CellStateTooHigh\n\
            refused 43 NoSuchIntervention\n\
            ok 3 intervention 1\n\
            refused 55 BadRepeat\n\
            refused 40 GenerationTooFar\n",
    },
    // What is no command.
    Row {
        script: b"\
            every\n\
            every 1\n\
            every 1 2\n\
            every 1 2 3\n\
            every 1 2 3 set\n\
            every 1 2 3 set 0\n\
            every x 2 3 set 0 0 1\n\
            every 1 x 3 set 0 0 1\n\
            every 1 2 x set 0 0 1\n\
            every -1 2 3 set 0 0 1\n\
            every 1 2 set 0 0 1\n\
            on 0 every\n\
            change 1 every\n\
            change x every 1 2 3 set 0 0 1\n\
            change 1 every 1 2 set 0 0 1\n\
            every 1 2 3 at 0 0 1\n\
            repeat 1 2 3 set 0 0 1\n",
        replies: b"\
            refused 80 BadCommand 1\n\
            refused 80 BadCommand 2\n\
            refused 80 BadCommand 3\n\
            refused 80 BadCommand 4\n\
            refused 80 BadCommand 5\n\
            refused 80 BadCommand 6\n\
            refused 80 BadCommand 7\n\
            refused 80 BadCommand 8\n\
            refused 80 BadCommand 9\n\
            refused 80 BadCommand 10\n\
            refused 80 BadCommand 11\n\
            refused 80 BadCommand 12\n\
            refused 80 BadCommand 13\n\
            refused 80 BadCommand 14\n\
            refused 80 BadCommand 15\n\
            refused 80 BadCommand 16\n\
            refused 80 BadCommand 17\n",
    },
    // A distance that is too large for any generation: it acts at the first alone.
    Row {
        script: b"\
            rule\n\
            @RULE X\n\
            @TABLE\n\
            n_states:2\n\
            neighborhood:oneDimensional\n\
            symmetries:none\n\
            0,1,0,1\n\
            0,0,1,1\n\
            1,0,0,0\n\
            1,1,1,0\n\
            end\n\
            every 99999999999999999999 2 1152921504606846976 set 0 0 1\n\
            mark 2 counts\n\
            mark 3 counts\n\
            mark 1000 counts\n\
            show 1\n\
            show 2\n\
            every 1 1000 18446744073709551616 set 0 0 1\n\
            show 3\n",
        replies: b"\
            ok 1\n\
            ok 2 intervention 1\n\
            ok 3 bookmark 1\n\
            ok 4 bookmark 2\n\
            ok 5 bookmark 3\n\
            bookmark 1 current 4\n\
            1 1\n\
            bookmark 2 current 4\n\
            1 2\n\
            refused 40 GenerationTooFar\n\
            bookmark 3 current 6\n\
            1 128\n",
    },
    // One that repeats is laid in its place among the ids; it becomes a single one, and repeats again.
    Row {
        script: b"\
            at 2 set 0 0 1\n\
            every 2 0 4 set 0 0 0 1 0 1\n\
            at 4 set 1 0 0 2 0 1\n\
            mark 4 window 0 0 3 1\n\
            mark 2 window 0 0 3 1\n\
            settle\n\
            show 1\n\
            show 2\n\
            change 2 4 set 0 0 1\n\
            show 1\n\
            show 2\n\
            change 1 every 1 4 4 set 1 0 0\n\
            show 1\n\
            show 2\n\
            change 3 every 3 1 4 set 2 0 1\n\
            show 1\n\
            show 2\n\
            drop 2\n\
            show 1\n\
            show 2\n",
        replies: b"\
            ok 1 intervention 1\n\
            ok 2 intervention 2\n\
            ok 3 intervention 3\n\
            ok 4 bookmark 1\n\
            ok 5 bookmark 2\n\
            settled\n\
            bookmark 1 current 6\n\
            0 0 1\n\
            bookmark 2 current 6\n\
            0 1 0\n\
            ok 6\n\
            bookmark 1 current 6\n\
            1 0 1\n\
            bookmark 2 current 6\n\
            1 0 0\n\
            ok 7\n\
            bookmark 1 current 6\n\
            1 0 1\n\
            bookmark 2 current 6\n\
            0 0 0\n\
            ok 8\n\
            bookmark 1 current 6\n\
            1 0 1\n\
            bookmark 2 current 6\n\
            0 0 1\n\
            ok 9\n\
            bookmark 1 current 6\n\
            0 0 1\n\
            bookmark 2 current 6\n\
            0 0 1\n",
    },
    // A change that is felt nowhere, and ones that are felt at the last generation or the first.
    Row {
        script: b"\
            rule\n\
            @RULE X\n\
            @TABLE\n\
            n_states:2\n\
            neighborhood:oneDimensional\n\
            symmetries:none\n\
            0,1,0,1\n\
            0,0,1,1\n\
            1,0,0,0\n\
            1,1,1,0\n\
            end\n\
            set 0 0 1\n\
            every 3 1 10 set 5 0 0\n\
            mark 12 counts\n\
            mark 4 counts\n\
            show 1\n\
            show 2\n\
            change 1 every 3 1 10 set 6 0 0 7 0 0\n\
            show 1\n\
            change 1 every 3 1 9 set 6 0 0 0 0 1\n\
            show 1\n\
            show 2\n\
            change 1 every 3 0 12 set 6 0 0 0 0 1\n\
            show 1\n\
            show 2\n\
            move 1 11\n\
            show 1\n\
            change 1 every 3 4 18 set 6 0 0 0 0 1\n\
            show 1\n\
            show 2\n\
            move 2 14\n\
            show 2\n",
        replies: b"\
            ok 1\n\
            ok 2\n\
            ok 3 intervention 1\n\
            ok 4 bookmark 1\n\
            ok 5 bookmark 2\n\
            bookmark 1 current 4\n\
            1 8\n\
            bookmark 2 current 4\n\
            1 2\n\
            ok 6\n\
            bookmark 1 current 4\n\
            1 4\n\
            ok 7\n\
            bookmark 1 current 5\n\
            1 12\n\
            bookmark 2 current 4\n\
            1 7\n\
            ok 8\n\
            bookmark 1 current 5\n\
            1 13\n\
            bookmark 2 current 4\n\
            1 4\n\
            ok 9\n\
            bookmark 1 current 5\n\
            1 10\n\
            ok 10\n\
            bookmark 1 current 4\n\
            1 8\n\
            bookmark 2 current 4\n\
            1 3\n\
            ok 11\n\
            bookmark 2 current 5\n\
            1 10\n",
    },
    // In a branch: marks end where the branch does, and go on with a bookmark that is moved.
    Row {
        script: b"\
            rule\n\
            @RULE X\n\
            @TABLE\n\
            n_states:2\n\
            neighborhood:oneDimensional\n\
            symmetries:none\n\
            0,1,0,1\n\
            0,0,1,1\n\
            1,0,0,0\n\
            1,1,1,0\n\
            end\n\
            set 0 0 1\n\
            branch 0 2\n\
            every 1 2 1152921504606846976 set 3 0 1\n\
            on 1 every 2 2 100 set -1 0 1\n\
            on 1 mark 4 window -6 0 13 1\n\
            mark 3 window -6 0 13 1\n\
            show 1\n\
            show 2\n\
            move 1 5\n\
            show 1\n\
            move 2 6\n\
            show 2\n\
            branch 1 4\n\
            on 2 mark 6 window -6 0 13 1\n\
            show 3\n\
            on 2 every 1 4 6 set 0 0 0\n\
            show 3\n\
            drop 2\n\
            show 1\n\
            show 3\n",
        replies: b"\
            ok 1\n\
            ok 2\n\
            ok 3 branch 1\n\
            ok 4 intervention 1\n\
            ok 5 intervention 2\n\
            ok 6 bookmark 1\n\
            ok 7 bookmark 2\n\
            bookmark 1 current 26\n\
            0 0 1 1 0 1 0 0 0 0 1 1 0\n\
            bookmark 2 current 26\n\
            0 0 0 1 0 1 0 1 1 1 1 0 0\n\
            ok 8\n\
            bookmark 1 current 26\n\
            0 1 1 1 0 0 1 0 0 1 1 1 1\n\
            ok 9\n\
            bookmark 2 current 26\n\
            1 0 0 0 1 1 0 1 1 1 0 1 1\n\
            ok 10 branch 2\n\
            ok 11 bookmark 3\n\
            bookmark 3 current 26\n\
            1 1 0 1 1 1 0 1 1 1 0 0 1\n\
            ok 12 intervention 3\n\
            bookmark 3 current 26\n\
            1 1 0 1 1 0 0 0 1 1 0 0 1\n\
            ok 13\n\
            bookmark 1 current 26\n\
            0 1 0 1 0 0 1 0 1 1 1 1 1\n\
            bookmark 3 current 26\n\
            1 0 0 0 1 0 0 1 1 0 0 0 1\n",
    },
];

#[test]
fn repeats_are_answered(rt: HostRuntime) {
    let alloc = rt.alloc();
    for row in REPEATS {
        row_is_answered(&rt, alloc, row);
    }
}
