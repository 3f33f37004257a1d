//! The commands that add bookmarks of each view.
use crate::tests::{Row, row_is_answered};

const VIEWS: &[Row] = &[
    Row {
        script: b"\
            mark 0 counts\n\
            mark 0 rle\n\
            mark 0 window 0 0 2 2\n\
            show 1\n\
            show 2\n\
            show 3\n",
        replies: b"\
            ok 1 bookmark 1\n\
            ok 2 bookmark 2\n\
            ok 3 bookmark 3\n\
            bookmark 1 current 6\n\
            empty\n\
            bookmark 2 current 50\n\
            #CXRLE Pos=0,0 Gen=0\n\
            x = 0, y = 0, rule = still\n\
            !\n\
            bookmark 3 current 8\n\
            0 0\n\
            0 0\n",
    },
    Row {
        script: b"\
            rule\n\
            @RULE X\n\
            @TABLE\n\
            n_states:2\n\
            neighborhood:oneDimensional\n\
            symmetries:none\n\
            0,1,0,1\n\
            0,0,1,1\n\
            1,0,0,0\n\
            1,1,1,0\n\
            end\n\
            set 0 0 1\n\
            mark 2 window -2 0 5 1\n\
            show 1\n",
        replies: b"\
            ok 1\n\
            ok 2\n\
            ok 3 bookmark 1\n\
            bookmark 1 current 10\n\
            1 0 0 0 1\n",
    },
    Row {
        script: b"\
            rule\n\
            @RULE X\n\
            @TABLE\n\
            n_states:2\n\
            neighborhood:oneDimensional\n\
            symmetries:none\n\
            0,1,0,1\n\
            0,0,1,1\n\
            1,0,0,0\n\
            1,1,1,0\n\
            end\n\
            set 0 0 1\n\
            mark 2 rle\n\
            show 1\n",
        replies: b"\
            ok 1\n\
            ok 2\n\
            ok 3 bookmark 1\n\
            bookmark 1 current 51\n\
            #CXRLE Pos=-2,0 Gen=2\n\
            x = 5, y = 1, rule = X\n\
            o3bo!\n",
    },
    // Columns come before rows, in the corner and in the size.
    Row {
        script: b"\
            set 3 -4 1\n\
            mark 0 window 3 -4 1 2\n\
            mark 0 window 2 -4 2 1\n\
            show 1\n\
            show 2\n",
        replies: b"\
            ok 1\n\
            ok 2 bookmark 1\n\
            ok 3 bookmark 2\n\
            bookmark 1 current 4\n\
            1\n\
            0\n\
            bookmark 2 current 4\n\
            0 1\n",
    },
    // Windows without cells or with too many, and such as leave the plane; numbers beyond their
    // ranges are the nearest ends.
    Row {
        script: b"\
            mark 0 window 0 0 0 1\n\
            mark 0 window 0 0 1 0\n\
            mark 0 window 0 0 256 257\n\
            mark 0 window 0 0 4294967297 1\n\
            mark 0 window 99999999999999999999 0 1 1\n\
            mark 0 window 0 -99999999999999999999 1 1\n\
            mark 0 window 2305843009213693951 0 1 1\n",
        replies: b"\
            refused 48 BadWindow\n\
            refused 48 BadWindow\n\
            refused 48 BadWindow\n\
            refused 48 BadWindow\n\
            refused 41 CellOutOfRange\n\
            refused 41 CellOutOfRange\n\
            ok 1 bookmark 1\n",
    },
    // Words that name no view.
    Row {
        script: b"\
            mark 0\n\
            mark 0 window\n\
            mark 0 window 0 0 1\n\
            mark 0 window 0 0 1 1 1\n\
            mark 0 window 0 0 -1 1\n\
            mark 0 window 0 0 1 x\n\
            mark 0 window 0 y 1 1\n\
            mark 0 window +1 0 1 1\n",
        replies: b"\
            refused 80 BadCommand 1\n\
            refused 80 BadCommand 2\n\
            refused 80 BadCommand 3\n\
            refused 80 BadCommand 4\n\
            refused 80 BadCommand 5\n\
            refused 80 BadCommand 6\n\
            refused 80 BadCommand 7\n\
            refused 80 BadCommand 8\n",
    },
    Row {
        script: b"\
            mark x rle\n\
            mark 0 rle 1\n\
            mark 0 Rle\n\
            mark rle 0\n\
            mark x window 0 0 1 1\n",
        replies: b"\
            refused 80 BadCommand 1\n\
            refused 80 BadCommand 2\n\
            refused 80 BadCommand 3\n\
            refused 80 BadCommand 4\n\
            refused 80 BadCommand 5\n",
    },
];

#[test]
fn views_are_shown(rt: HostRuntime) {
    let alloc = rt.alloc();
    for row in VIEWS {
        row_is_answered(&rt, alloc, row);
    }
}
