//! The lines that say how far a settling is.
use desk_program::Line;
use std::alloc::Global;
use std::process::Abort;

struct Row {
    line: Line,
    text: &'static str,
}

const LINES: &[Row] = &[
    Row {
        line: Line {
            revision: 12,
            current: 3,
            all: 8,
            seconds: 41,
        },
        text: "revision 12: 3 of 8 bookmarks are current, 41 s",
    },
    Row {
        line: Line {
            revision: 0,
            current: 0,
            all: 0,
            seconds: 1,
        },
        text: "revision 0: 0 of 0 bookmarks are current, 1 s",
    },
    Row {
        line: Line {
            revision: 18_446_744_073_709_551_615,
            current: 999,
            all: 1000,
            seconds: 86_400,
        },
        text: "revision 18446744073709551615: 999 of 1000 bookmarks are current, 86400 s",
    },
];

fn says(rt: &impl Abort, alloc: Global, row: &Row) {
    let line = row.line;
    let text = format!(in alloc; "{line}").expect(rt, "memory");
    assert_eq!(rt; text.as_str(), row.text, "at {line:?}");
}

#[test]
fn lines_say_how_far_it_is(rt: HostRuntime) {
    let alloc = rt.alloc();
    for row in LINES {
        says(&rt, alloc, row);
    }
}
