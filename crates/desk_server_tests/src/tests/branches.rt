//! Branches of history: their commands, and what their bookmarks show.
use crate::tests::{Row, row_is_answered};

/// A branch leaves at generation 2, of whose two cells it clears one. That is dropped again, and then
/// an intervention comes in below the fork.
const TWO_LINES: &[u8] = b"\
    rule\n\
    @RULE X\n\
    @TABLE\n\
    n_states:2\n\
    neighborhood:oneDimensional\n\
    symmetries:none\n\
    0,1,0,1\n\
    0,0,1,1\n\
    1,0,0,0\n\
    1,1,1,0\n\
    end\n\
    set 0 0 1\n\
    branch 0 2\n\
    on 1 at 2 set 2 0 0\n\
    on 1 mark 4 window -4 0 9 1\n\
    mark 4 window -4 0 9 1\n\
    settle\n\
    show 1\n\
    show 2\n\
    drop 1\n\
    show 2\n\
    show 1\n\
    at 1 set 1 0 0\n\
    show 1\n\
    show 2\n";

const TWO_LINES_REPLIES: &[u8] = b"\
    ok 1\n\
    ok 2\n\
    ok 3 branch 1\n\
    ok 4 intervention 1\n\
    ok 5 bookmark 1\n\
    ok 6 bookmark 2\n\
    settled\n\
    bookmark 1 current 18\n\
    1 0 0 0 1 0 0 0 0\n\
    bookmark 2 current 18\n\
    1 0 0 0 0 0 0 0 1\n\
    ok 7\n\
    bookmark 2 current 18\n\
    1 0 0 0 0 0 0 0 1\n\
    bookmark 1 current 18\n\
    1 0 0 0 0 0 0 0 1\n\
    ok 8 intervention 2\n\
    bookmark 1 current 18\n\
    1 0 1 0 1 0 1 0 0\n\
    bookmark 2 current 18\n\
    1 0 1 0 1 0 1 0 0\n";

const BRANCHES: &[Row] = &[
    Row {
        script: TWO_LINES,
        replies: TWO_LINES_REPLIES,
    },
    // What is no command.
    Row {
        script: b"\
            branch\n\
            branch 0\n\
            branch 0 1 2\n\
            branch x 1\n\
            branch 0 x\n\
            branch -1 0\n\
            unbranch\n\
            unbranch x\n\
            unbranch 1 2\n",
        replies: b"\
            refused 80 BadCommand 1\n\
            refused 80 BadCommand 2\n\
            refused 80 BadCommand 3\n\
            refused 80 BadCommand 4\n\
            refused 80 BadCommand 5\n\
            refused 80 BadCommand 6\n\
            refused 80 BadCommand 7\n\
            refused 80 BadCommand 8\n\
            refused 80 BadCommand 9\n",
    },
    Row {
        script: b"\
            on\n\
            on 0\n\
            on x at 0 set 0 0 1\n\
            on at 0 set 0 0 1\n\
            on 0 at\n\
            on 0 at 0 set\n\
            on 0 mark 0\n\
            on 0 set 0 0 1\n\
            on 0 drop 1\n\
            on 0 show 1\n\
            on 0 on 0 mark 0 counts\n\
            on -1 mark 0 counts\n",
        replies: b"\
            refused 80 BadCommand 1\n\
            refused 80 BadCommand 2\n\
            refused 80 BadCommand 3\n\
            refused 80 BadCommand 4\n\
            refused 80 BadCommand 5\n\
            refused 80 BadCommand 6\n\
            refused 80 BadCommand 7\n\
            refused 80 BadCommand 8\n\
            refused 80 BadCommand 9\n\
            refused 80 BadCommand 10\n\
            refused 80 BadCommand 11\n\
            refused 80 BadCommand 12\n",
    },
    // Branches that are not there, and generations before a fork.
    Row {
        script: b"\
            branch 7 1152921504606846977\n\
            branch 0 1152921504606846977\n\
            on 1 at 0 set 0 0 1\n\
            on 99999999999999999999 mark 0 counts\n\
            unbranch 0\n\
            unbranch 1\n\
            branch 0 2\n\
            branch 1 1\n\
            on 1 at 1 set 0 0 1\n\
            on 1 mark 1 counts\n\
            on 1 mark 2 counts\n\
            unbranch 1\n\
            move 1 1\n",
        replies: b"\
            refused 50 NoSuchBranch\n\
            refused 40 GenerationTooFar\n\
            refused 50 NoSuchBranch\n\
            refused 50 NoSuchBranch\n\
            refused 52 BranchInUse\n\
            refused 50 NoSuchBranch\n\
            ok 1 branch 1\n\
            refused 51 BeforeFork\n\
            refused 51 BeforeFork\n\
            refused 51 BeforeFork\n\
            ok 2 bookmark 1\n\
            refused 52 BranchInUse\n\
            refused 51 BeforeFork\n",
    },
    // Branches are counted apart, and no id is given twice. Branch 0 may be named.
    Row {
        script: b"\
            on 0 at 0 set 0 0 1\n\
            on 0 mark 0 counts\n\
            branch 0 0\n\
            branch 1 0\n\
            unbranch 1\n\
            unbranch 2\n\
            branch 0 0\n\
            on 2 mark 0 counts\n\
            on 3 mark 0 counts\n\
            show 1\n\
            show 2\n",
        replies: b"\
            ok 1 intervention 1\n\
            ok 2 bookmark 1\n\
            ok 3 branch 1\n\
            ok 4 branch 2\n\
            refused 52 BranchInUse\n\
            ok 5\n\
            ok 6 branch 3\n\
            refused 50 NoSuchBranch\n\
            ok 7 bookmark 2\n\
            bookmark 1 current 4\n\
            1 1\n\
            bookmark 2 current 4\n\
            1 1\n",
    },
    // A change and a move stay in their branch, under a rule by which each cell stays as it is.
    Row {
        script: b"\
            branch 0 2\n\
            on 1 at 3 set 0 0 1\n\
            on 1 mark 3 counts\n\
            mark 5 counts\n\
            show 1\n\
            show 2\n\
            change 1 1 set 0 0 1\n\
            change 1 2 set 0 0 1 1 0 1\n\
            move 1 2\n\
            show 1\n\
            show 2\n\
            at 3 set 9 9 1\n\
            at 2 set 7 7 1\n\
            show 1\n\
            show 2\n",
        replies: b"\
            ok 1 branch 1\n\
            ok 2 intervention 1\n\
            ok 3 bookmark 1\n\
            ok 4 bookmark 2\n\
            bookmark 1 current 4\n\
            1 1\n\
            bookmark 2 current 6\n\
            empty\n\
            refused 51 BeforeFork\n\
            ok 5\n\
            ok 6\n\
            bookmark 1 current 4\n\
            1 2\n\
            bookmark 2 current 6\n\
            empty\n\
            ok 7 intervention 2\n\
            ok 8 intervention 3\n\
            bookmark 1 current 4\n\
            1 3\n\
            bookmark 2 current 4\n\
            1 2\n",
    },
];

#[test]
fn branches_are_answered(rt: HostRuntime) {
    let alloc = rt.alloc();
    for row in BRANCHES {
        row_is_answered(&rt, alloc, row);
    }
}
