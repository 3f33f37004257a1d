//! The commands that begin with another start.
use crate::tests::{Row, row_is_answered};

const STARTS: &[Row] = &[
    // The generation that the file names is told, and the desk counts from 0.
    Row {
        script: b"\
            start rle\n\
            #CXRLE Pos=-3,2 Gen=7\n\
            x = 2, y = 1\n\
            2A!\n\
            end\n",
        replies: b"ok 1 gen 7\n",
    },
    Row {
        script: b"\
            rule\n\
            @RULE F\n\
            @TABLE\n\
            n_states:4\n\
            neighborhood:oneDimensional\n\
            symmetries:none\n\
            end\n\
            \x20start   rle\t\r\n\
            #CXRLE Pos=-3,2 Gen=7\r\n\
            x = 3, y = 2, rule = other\n\
            2A.$C!\n\
            end\n\
            mark 0 window -3 2 3 2\n\
            mark 0 rle\n\
            show 1\n\
            show 2\n",
        replies: b"\
            ok 1\n\
            ok 2 gen 7\n\
            ok 3 bookmark 1\n\
            ok 4 bookmark 2\n\
            bookmark 1 current 12\n\
            1 1 0\n\
            3 0 0\n\
            bookmark 2 current 51\n\
            #CXRLE Pos=-3,2 Gen=0\n\
            x = 2, y = 2, rule = F\n\
            2A$C!\n",
    },
    Row {
        script: b"\
            start rle\n\
            #CXRLE Gen=99999999999999999999\n\
            x = 0, y = 0\n\
            !\n\
            end\n",
        replies: b"ok 1 gen 18446744073709551615\n",
    },
    // Another start takes the place of the one before.
    Row {
        script: b"\
            set 0 0 1\n\
            mark 0 counts\n\
            show 1\n\
            start rle\n\
            x = 0, y = 0\n\
            end\n\
            show 1\n",
        replies: b"\
            ok 1\n\
            ok 2 bookmark 1\n\
            bookmark 1 current 4\n\
            1 1\n\
            ok 3 gen 0\n\
            bookmark 1 current 6\n\
            empty\n",
    },
    // What is no pattern, with its offset within the text.
    Row {
        script: b"\
            start rle\n\
            x = 1, y = 1\n\
            yP!\n\
            end\n\
            quit\n",
        replies: b"refused 22 BadRun 13\nbye\n",
    },
    Row {
        script: b"\
            start rle\n\
            end\n\
            start rle\n\
            x = 1\n\
            end\n\
            start rle\n\
            x = 1, y = 1, rule = B3/S23:T9,9\n\
            end\n\
            settle\n",
        replies: b"\
            refused 20 NoHeader\n\
            refused 21 BadHeader\n\
            refused 23 BoundedGrid\n\
            settled\n",
    },
    // A pattern and a rule file are read each by its own format.
    Row {
        script: b"\
            start rle\n\
            @RULE X\n\
            end\n\
            rule\n\
            x = 1, y = 1\n\
            o!\n\
            end\n",
        replies: b"refused 20 NoHeader\nrefused 1 NoRuleLine\n",
    },
    // Patterns that are no start of the document change nothing: a cell in the plane but where no
    // edit may name one, one out of the plane, and a state that the rule lacks.
    Row {
        script: b"\
            set 0 0 1\n\
            start rle\n\
            #CXRLE Pos=2305843009213693951,0\n\
            x = 2, y = 1\n\
            o!\n\
            end\n\
            start rle\n\
            #CXRLE Pos=2305843009213693951,0\n\
            x = 2, y = 1\n\
            2o!\n\
            end\n\
            start rle\n\
            x = 1, y = 1\n\
            C!\n\
            end\n\
            mark 0 counts\n\
            show 1\n",
        replies: b"\
            ok 1\n\
            refused 41 CellOutOfRange\n\
            refused 41 CellOutOfRange\n\
            refused 42 CellStateTooHigh\n\
            ok 2 bookmark 1\n\
            bookmark 1 current 4\n\
            1 1\n",
    },
    // Texts without their end.
    Row {
        script: b"start rle\nx = 1, y = 1\no!\n",
        replies: b"refused 81 NoEnd 1\n",
    },
    Row {
        script: b"# one\nstart rle",
        replies: b"refused 81 NoEnd 2\n",
    },
    // Other words take no text: the next line is a command.
    Row {
        script: b"\
            start\n\
            settle\n\
            start foo\n\
            settle\n\
            start rle x\n\
            settle\n",
        replies: b"\
            refused 80 BadCommand 1\n\
            settled\n\
            refused 80 BadCommand 3\n\
            settled\n\
            refused 80 BadCommand 5\n\
            settled\n",
    },
];

#[test]
fn starts_are_taken(rt: HostRuntime) {
    let alloc = rt.alloc();
    for row in STARTS {
        row_is_answered(&rt, alloc, row);
    }
}
