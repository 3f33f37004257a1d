//! The command that writes the document as a script.
use crate::tests::{Row, row_is_answered};

const SCRIPTS: &[Row] = &[
    // The opening document.
    Row {
        script: b"script\n",
        replies: b"\
            start mc\n\
            [M2] (experiment desk)\n\
            #R still\n\
            #G 0\n\
            1 0 0 0 0\n\
            end\n\
            scripted 60\n",
    },
    // Each kind of branch, bookmark and intervention, and ids that none has any more.
    Row {
        script: b"\
            rule\n\
            @RULE X\n\
            @TABLE\n\
            n_states:2\n\
            neighborhood:oneDimensional\n\
            symmetries:none\n\
            0,1,0,1\n\
            0,0,1,1\n\
            1,0,0,0\n\
            1,1,1,0\n\
            end\n\
            set 0 0 1\n\
            branch 0 1\n\
            branch 0 2\n\
            branch 2 3\n\
            unbranch 1\n\
            mark 2 counts\n\
            mark 4 rle\n\
            on 3 mark 4 window -4 0 9 1\n\
            on 2 mark 5 mc\n\
            unmark 1\n\
            at 0 set 5 0 1\n\
            at 1 set 1 0 1 -2 -3 1\n\
            on 3 every 2 3 9 set 2 0 0\n\
            drop 1\n\
            show 3\n\
            show 2\n\
            script\n",
        replies: b"\
            ok 1\n\
            ok 2\n\
            ok 3 branch 1\n\
            ok 4 branch 2\n\
            ok 5 branch 3\n\
            ok 6\n\
            ok 7 bookmark 1\n\
            ok 8 bookmark 2\n\
            ok 9 bookmark 3\n\
            ok 10 bookmark 4\n\
            ok 11\n\
            ok 12 intervention 1\n\
            ok 13 intervention 2\n\
            ok 14 intervention 3\n\
            ok 15\n\
            bookmark 3 current 18\n\
            1 0 0 0 0 0 0 0 1\n\
            bookmark 2 current 63\n\
            #CXRLE Pos=-5,-3 Gen=4\n\
            x = 10, y = 4, rule = X\n\
            obobobo3$bo7bo!\n\
            rule\n\
            @RULE X\n\
            @TABLE\n\
            n_states:2\n\
            neighborhood:oneDimensional\n\
            symmetries:none\n\
            0,1,0,1\n\
            0,0,1,1\n\
            1,0,0,0\n\
            1,1,1,0\n\
            end\n\
            start mc\n\
            [M2] (experiment desk)\n\
            #R X\n\
            #G 0\n\
            1 0 0 0 1\n\
            end\n\
            branch 0 0\n\
            unbranch 1\n\
            branch 0 2\n\
            branch 2 3\n\
            on 0 mark 0 counts\n\
            unmark 1\n\
            on 0 mark 4 rle\n\
            on 3 mark 4 window -4 0 9 1\n\
            on 2 mark 5 mc\n\
            on 0 at 0 set 0 0 0\n\
            drop 1\n\
            on 0 at 1 set 1 0 1 -2 -3 1\n\
            on 3 every 2 3 9 set 2 0 0\n\
            scripted 380\n",
    },
    // What was written makes the same document, which is written so again.
    Row {
        script: b"\
            rule\n\
            @RULE X\n\
            @TABLE\n\
            n_states:2\n\
            neighborhood:oneDimensional\n\
            symmetries:none\n\
            0,1,0,1\n\
            0,0,1,1\n\
            1,0,0,0\n\
            1,1,1,0\n\
            end\n\
            start mc\n\
            [M2] (experiment desk)\n\
            #R X\n\
            #G 0\n\
            1 0 0 0 1\n\
            end\n\
            branch 0 0\n\
            unbranch 1\n\
            branch 0 2\n\
            branch 2 3\n\
            on 0 mark 0 counts\n\
            unmark 1\n\
            on 0 mark 4 rle\n\
            on 3 mark 4 window -4 0 9 1\n\
            on 2 mark 5 mc\n\
            on 0 at 0 set 0 0 0\n\
            drop 1\n\
            on 0 at 1 set 1 0 1 -2 -3 1\n\
            on 3 every 2 3 9 set 2 0 0\n\
            show 3\n\
            show 2\n\
            script\n",
        replies: b"\
            ok 1\n\
            ok 2 gen 0\n\
            ok 3 branch 1\n\
            ok 4\n\
            ok 5 branch 2\n\
            ok 6 branch 3\n\
            ok 7 bookmark 1\n\
            ok 8\n\
            ok 9 bookmark 2\n\
            ok 10 bookmark 3\n\
            ok 11 bookmark 4\n\
            ok 12 intervention 1\n\
            ok 13\n\
            ok 14 intervention 2\n\
            ok 15 intervention 3\n\
            bookmark 3 current 18\n\
            1 0 0 0 0 0 0 0 1\n\
            bookmark 2 current 63\n\
            #CXRLE Pos=-5,-3 Gen=4\n\
            x = 10, y = 4, rule = X\n\
            obobobo3$bo7bo!\n\
            rule\n\
            @RULE X\n\
            @TABLE\n\
            n_states:2\n\
            neighborhood:oneDimensional\n\
            symmetries:none\n\
            0,1,0,1\n\
            0,0,1,1\n\
            1,0,0,0\n\
            1,1,1,0\n\
            end\n\
            start mc\n\
            [M2] (experiment desk)\n\
            #R X\n\
            #G 0\n\
            1 0 0 0 1\n\
            end\n\
            branch 0 0\n\
            unbranch 1\n\
            branch 0 2\n\
            branch 2 3\n\
            on 0 mark 0 counts\n\
            unmark 1\n\
            on 0 mark 4 rle\n\
            on 3 mark 4 window -4 0 9 1\n\
            on 2 mark 5 mc\n\
            on 0 at 0 set 0 0 0\n\
            drop 1\n\
            on 0 at 1 set 1 0 1 -2 -3 1\n\
            on 3 every 2 3 9 set 2 0 0\n\
            scripted 380\n",
    },
    // No word may follow.
    Row {
        script: b"\
            script 1\n\
            scripts\n\
            Script\n\
            script script\n",
        replies: b"\
            refused 80 BadCommand 1\n\
            refused 80 BadCommand 2\n\
            refused 80 BadCommand 3\n\
            refused 80 BadCommand 4\n",
    },
    // The rule's text is that of the last rule that was taken, byte for byte. One that is refused
    // changes nothing, nor does a text for the start.
    Row {
        script: b"\
            rule\n\
            @RULE X\n\
            @TABLE\n\
            n_states:2\n\
            neighborhood:oneDimensional\n\
            symmetries:none\n\
            0,1,0,1\n\
            0,0,1,1\n\
            1,0,0,0\n\
            1,1,1,0\n\
            end\n\
            rule\n\
            \r\n\
            @RULE Y\r\n\
            # a comment\n\
            \n\
            @TABLE\n\
            n_states:2\n\
            neighborhood:oneDimensional\n\
            symmetries:none\n\
            0,1,0,1\n\
            0,0,1,1\n\
            1,0,0,0\n\
            1,1,1,0\n\
            end\n\
            rule\n\
            @RULE Z\n\
            end\n\
            start rle\n\
            x = 1, y = 1\n\
            o!\n\
            end\n\
            script\n",
        replies: b"\
            ok 1\n\
            ok 2\n\
            refused 2 NoTable\n\
            ok 3 gen 0\n\
            rule\n\
            \r\n\
            @RULE Y\r\n\
            # a comment\n\
            \n\
            @TABLE\n\
            n_states:2\n\
            neighborhood:oneDimensional\n\
            symmetries:none\n\
            0,1,0,1\n\
            0,0,1,1\n\
            1,0,0,0\n\
            1,1,1,0\n\
            end\n\
            start mc\n\
            [M2] (experiment desk)\n\
            #R Y\n\
            #G 0\n\
            1 0 0 0 1\n\
            end\n\
            scripted 183\n",
    },
];

#[test]
fn documents_are_written_as_scripts(rt: HostRuntime) {
    let alloc = rt.alloc();
    for row in SCRIPTS {
        row_is_answered(&rt, alloc, row);
    }
}
