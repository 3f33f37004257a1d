//! Scripts of every command.
use crate::tests::devices::Pieces;
use crate::tests::first::{FIRST, FIRST_REPLIES};
use crate::tests::{Row, answers, row_is_answered};
use script_help::command_list;
use std::alloc::Global;
use std::process::Abort;
use std::sync::Wait;

const SCRIPTS: &[Row] = &[
    Row {
        script: FIRST,
        replies: FIRST_REPLIES,
    },
    Row {
        script: b"",
        replies: b"",
    },
    Row {
        script: b"quit",
        replies: b"bye\n",
    },
    Row {
        script: b"quit\nsettle\n",
        replies: b"bye\n",
    },
    Row {
        script: b"\
            \n\
            # quit\n\
            \x20\t\n\
            \x20 settle \t\r\n",
        replies: b"settled\n",
    },
    // What is no command, with its line.
    Row {
        script: b"paint 3",
        replies: b"refused 80 BadCommand 1\n",
    },
    Row {
        script: b"\
            \n\
            works\n\
            rule X\n\
            quit now\n\
            show\n\
            show 1 2\n\
            show x\n\
            settle 1\n\
            work 1\n\
            start x\n",
        replies: b"\
            refused 80 BadCommand 2\n\
            refused 80 BadCommand 3\n\
            refused 80 BadCommand 4\n\
            refused 80 BadCommand 5\n\
            refused 80 BadCommand 6\n\
            refused 80 BadCommand 7\n\
            refused 80 BadCommand 8\n\
            refused 80 BadCommand 9\n\
            refused 80 BadCommand 10\n",
    },
    Row {
        script: b"\
            set\n\
            set 0\n\
            set 0 0\n\
            set 0 0 1 2\n\
            set 0 0 -1\n\
            set a 0 0\n\
            mark 1\n\
            mark counts\n\
            mark -1 counts\n\
            mark 1 macrocell\n\
            mark 1 counts 2\n",
        replies: b"\
            refused 80 BadCommand 1\n\
            refused 80 BadCommand 2\n\
            refused 80 BadCommand 3\n\
            refused 80 BadCommand 4\n\
            refused 80 BadCommand 5\n\
            refused 80 BadCommand 6\n\
            refused 80 BadCommand 7\n\
            refused 80 BadCommand 8\n\
            refused 80 BadCommand 9\n\
            refused 80 BadCommand 10\n\
            refused 80 BadCommand 11\n",
    },
    // What is looked at. Each poll works one job: here a step, and then a text.
    Row {
        script: b"\
            mark 5 counts\n\
            peek 1\n\
            peek 2\n\
            poll\n\
            poll\n\
            peek 1\n\
            poll\n\
            peek 1\n\
            poll\n",
        replies: b"\
            ok 1 bookmark 1\n\
            bookmark 1 pending\n\
            refused 44 NoSuchBookmark\n\
            polled 1\n\
            polled 1\n\
            bookmark 1 pending\n\
            polled 0\n\
            bookmark 1 current 6\n\
            empty\n\
            polled 0\n",
    },
    Row {
        script: b"\
            branch 0 3\n\
            at 2 set 1 1 1 0 0 0\n\
            on 1 every 2 4 10 set 5 5 1\n\
            mark 0 counts\n\
            on 1 mark 9 window -3 -2 4 5\n\
            list\n\
            settle\n\
            mark 1 rle\n\
            mark 2 mc\n\
            list\n",
        replies: b"\
            ok 1 branch 1\n\
            ok 2 intervention 1\n\
            ok 3 intervention 2\n\
            ok 4 bookmark 1\n\
            ok 5 bookmark 2\n\
            branch 1 of 0 at 3\n\
            intervention 1 on 0 at 2 cells 2\n\
            intervention 2 on 1 every 2 4 10 cells 1\n\
            bookmark 1 on 0 at 0 counts pending\n\
            bookmark 2 on 1 at 9 window -3 -2 4 5 pending\n\
            listed 5\n\
            settled\n\
            ok 6 bookmark 3\n\
            ok 7 bookmark 4\n\
            branch 1 of 0 at 3\n\
            intervention 1 on 0 at 2 cells 2\n\
            intervention 2 on 1 every 2 4 10 cells 1\n\
            bookmark 1 on 0 at 0 counts current\n\
            bookmark 2 on 1 at 9 window -3 -2 4 5 current\n\
            bookmark 3 on 0 at 1 rle pending\n\
            bookmark 4 on 0 at 2 mc pending\n\
            listed 7\n",
    },
    Row {
        script: b"\
            list\n\
            list 1\n\
            poll 1\n\
            peek\n\
            peek 1 2\n",
        replies: b"\
            listed 0\n\
            refused 80 BadCommand 2\n\
            refused 80 BadCommand 3\n\
            refused 80 BadCommand 4\n\
            refused 80 BadCommand 5\n",
    },
    // No word may stand behind the one that asks for the commands.
    Row {
        script: b"\
            help 1\n\
            helps\n\
            Help\n\
            help help\n\
            on 0 help\n",
        replies: b"\
            refused 80 BadCommand 1\n\
            refused 80 BadCommand 2\n\
            refused 80 BadCommand 3\n\
            refused 80 BadCommand 4\n\
            refused 80 BadCommand 5\n",
    },
    // Texts without their end.
    Row {
        script: b"rule\n@RULE X\n",
        replies: b"refused 81 NoEnd 1\n",
    },
    Row {
        script: b"# one\nrule",
        replies: b"refused 81 NoEnd 2\n",
    },
    Row {
        script: b"rule\nend\nquit",
        replies: b"refused 1 NoRuleLine\nbye\n",
    },
    // The empty pattern.
    Row {
        script: b"\
            mark 0 counts\n\
            show 1\n\
            show 2\n\
            show 0\n",
        replies: b"\
            ok 1 bookmark 1\n\
            bookmark 1 current 6\n\
            empty\n\
            refused 44 NoSuchBookmark\n\
            refused 44 NoSuchBookmark\n",
    },
    // The ends of the ranges, and numbers beyond them.
    Row {
        script: b"\
            set 1152921504606846975 0 1\n\
            set 1152921504606846976 0 1\n\
            set 0 -1152921504606846976 1\n\
            set 0 -1152921504606846977 1\n",
        replies: b"\
            ok 1\n\
            refused 41 CellOutOfRange\n\
            ok 2\n\
            refused 41 CellOutOfRange\n",
    },
    Row {
        script: b"\
            mark 1152921504606846976 counts\n\
            mark 1152921504606846977 counts\n\
            mark 99999999999999999999999999 counts\n",
        replies: b"\
            ok 1 bookmark 1\n\
            refused 40 GenerationTooFar\n\
            refused 40 GenerationTooFar\n",
    },
    Row {
        script: b"\
            set 99999999999999999999 0 1\n\
            set 0 -99999999999999999999 1\n\
            set 0 0 65536\n\
            set 0 0 2\n\
            set 0 0 1\n\
            show 99999999999999999999\n",
        replies: b"\
            refused 41 CellOutOfRange\n\
            refused 41 CellOutOfRange\n\
            refused 42 CellStateTooHigh\n\
            refused 42 CellStateTooHigh\n\
            ok 1\n\
            refused 44 NoSuchBookmark\n",
    },
    // The last mention of a cell wins.
    Row {
        script: b"set 0 0 1 3 -4 1 0 0 0\nmark 0 counts\nshow 1\n",
        replies: b"\
            ok 1\n\
            ok 2 bookmark 1\n\
            bookmark 1 current 4\n\
            1 1\n",
    },
    // A result that is not state 0 where all around is.
    Row {
        script: b"\
            rule\n\
            @RULE Q\n\
            @TABLE\n\
            n_states:2\n\
            neighborhood:oneDimensional\n\
            symmetries:none\n\
            0,0,0,1\n\
            end\n\
            mark 0 counts\n",
        replies: b"refused 13 NotQuiescent\nok 1 bookmark 1\n",
    },
    // A rule with too few states for the start.
    Row {
        script: b"\
            rule\n\
            @RULE F\n\
            @TABLE\n\
            n_states:4\n\
            neighborhood:oneDimensional\n\
            symmetries:none\n\
            end\n\
            set 0 0 3\n\
            rule\n\
            @RULE X\n\
            @TABLE\n\
            n_states:2\n\
            neighborhood:oneDimensional\n\
            symmetries:none\n\
            end\n\
            mark 7 counts\n\
            show 1\n",
        replies: b"\
            ok 1\n\
            ok 2\n\
            refused 42 CellStateTooHigh\n\
            ok 3 bookmark 1\n\
            bookmark 1 current 4\n\
            3 1\n",
    },
    // A rule's refusal tells its line within the text.
    Row {
        script: b"\
            mark 0 counts\n\
            rule\n\
            @RULE Y\n\
            @TABLE\n\
            n_states:2\n\
            neighborhood:oneDimensional\n\
            symmetries:none\n\
            0,1,0\n\
            end\n\
            quit\n",
        replies: b"ok 1 bookmark 1\nrefused 8 BadTransition 6\nbye\n",
    },
];

#[test]
fn scripts_are_answered(rt: HostRuntime) {
    let alloc = rt.alloc();
    for row in SCRIPTS {
        row_is_answered(&rt, alloc, row);
    }
}

#[test]
fn help_lists_the_commands_and_changes_nothing(rt: HostRuntime) {
    let alloc = rt.alloc();
    let list = command_list();
    let size = list.len();
    let is_list = list.starts_with("Commands of a script,") && list.contains("\n  help  ");
    assert!(&rt; is_list, "{list}");
    let wanted = format!(in alloc;
        "\
        ok 1\n\
        help {size}\n\
        {list}ok 2\n\
        help {size}\n\
        {list}bye\n"
    );
    let wanted = wanted.expect(&rt, "memory");
    let script = b"\
        set 0 0 1\n\
        help\n\
        set 0 0 1\n\
        \x20\thelp \r\n\
        quit\n";
    answers(&rt, alloc, Pieces::whole(script), wanted.as_bytes());
}

fn first_by(rt: &(impl Abort + Wait), alloc: Global, size: usize) {
    let pieces = Pieces {
        bytes: FIRST,
        size,
        fails: false,
    };
    answers(rt, alloc, pieces, FIRST_REPLIES);
}

#[test]
fn scripts_come_in_any_pieces(rt: HostRuntime) {
    let alloc = rt.alloc();
    first_by(&rt, alloc, 1);
    first_by(&rt, alloc, 2);
    first_by(&rt, alloc, 7);
}

// A command that sets so many cells.
fn cells(rt: &impl Abort, alloc: Global, count: usize) -> Vec<u8> {
    let mut script = Vec::new(alloc);
    script.extend_from_slice(b"set").expect(rt, "memory");
    for _ in 0..count {
        script.extend_from_slice(b" 5 6 1").expect(rt, "memory");
    }
    script
}

fn sets_many(rt: &(impl Abort + Wait), alloc: Global, count: usize, replies: &[u8]) {
    let script = cells(rt, alloc, count);
    answers(rt, alloc, Pieces::whole(&script), replies);
}

#[test]
fn many_cells_are_set_at_once(rt: HostRuntime) {
    let alloc = rt.alloc();
    // A line of more than 4 KB.
    sets_many(&rt, alloc, 700, b"ok 1\n");
    sets_many(&rt, alloc, 10_000, b"ok 1\n");
    sets_many(&rt, alloc, 10_001, b"refused 47 TooManyCells\n");
}

// A rule whose text has so many bytes in comments, and a command with so many spaces.
fn long_script(rt: &impl Abort, alloc: Global, count: usize) -> Vec<u8> {
    let mut script = Vec::new(alloc);
    script
        .extend_from_slice(
            b"\
            rule\n\
            @RULE X\n\
            @TABLE\n\
            #",
        )
        .expect(rt, "memory");
    let comment = b"x".repeat(alloc, count).expect(rt, "memory");
    script.extend_from_slice(&comment).expect(rt, "memory");
    script.extend_from_slice(RULE).expect(rt, "memory");
    let spaces = b" ".repeat(alloc, count).expect(rt, "memory");
    script.extend_from_slice(&spaces).expect(rt, "memory");
    script.extend_from_slice(b"0 counts\n").expect(rt, "memory");
    script
}

const RULE: &[u8] = b"\
    \n\
    n_states:2\n\
    neighborhood:oneDimensional\n\
    symmetries:none\n\
    0,1,0,1\n\
    end\n\
    mark ";

fn long_is_answered(rt: &(impl Abort + Wait), alloc: Global, count: usize) {
    let script = long_script(rt, alloc, count);
    answers(
        rt,
        alloc,
        Pieces::whole(&script),
        b"ok 1\nok 2 bookmark 1\n",
    );
}

#[test]
fn texts_and_lines_may_be_long(rt: HostRuntime) {
    let alloc = rt.alloc();
    long_is_answered(&rt, alloc, 4_000);
    long_is_answered(&rt, alloc, 5_000);
    long_is_answered(&rt, alloc, 100_000);
}
