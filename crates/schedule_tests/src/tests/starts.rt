//! Patterns as starts, and cells that are set in them.
use super::{
    Cells, EDGE, GREATEST, LEAST, Row, apply, check_edit, opening, plain, same, set, start_of,
};
use schedule::Document;
use std::alloc::Global;
use std::process::Abort;

// A spent revision is looked at after all else.
fn check_start(rt: &impl Abort, alloc: Global, case: &Cells) {
    let edit = start_of(rt, alloc, case.rows);
    check_edit(rt, alloc, 0, &edit, case.wanted, &case.rows);
    let last = if case.wanted == 0 { 49 } else { case.wanted };
    check_edit(rt, alloc, u64::MAX, &edit, last, &case.rows);
}

const STARTS: [Cells; 13] = [
    Cells {
        rows: &[],
        wanted: 0,
    },
    Cells {
        rows: &[(0, 0, 1)],
        wanted: 0,
    },
    Cells {
        rows: &[(0, 0, 2)],
        wanted: 42,
    },
    Cells {
        rows: &[(0, 0, 255)],
        wanted: 42,
    },
    Cells {
        rows: &[(EDGE - 1, EDGE - 1, 1)],
        wanted: 0,
    },
    Cells {
        rows: &[(-EDGE, -EDGE, 1)],
        wanted: 0,
    },
    Cells {
        rows: &[(EDGE, 0, 1)],
        wanted: 41,
    },
    Cells {
        rows: &[(-EDGE - 1, 0, 1)],
        wanted: 41,
    },
    Cells {
        rows: &[(0, EDGE, 1)],
        wanted: 41,
    },
    Cells {
        rows: &[(0, -EDGE - 1, 1)],
        wanted: 41,
    },
    Cells {
        rows: &[(GREATEST, 0, 1)],
        wanted: 41,
    },
    // Every cell is looked at, and for its place before any for its state.
    Cells {
        rows: &[(0, 0, 2), (0, LEAST, 1)],
        wanted: 41,
    },
    Cells {
        rows: &[(0, 0, 1), (1, 0, 2)],
        wanted: 42,
    },
];

#[test]
fn starts(rt: HostRuntime) {
    for case in &STARTS {
        check_start(&rt, rt.alloc(), case);
    }
}

#[test]
fn start_is_replaced(rt: HostRuntime) {
    let alloc = rt.alloc();
    let mut document = opening(&rt, alloc, 0);
    apply(&rt, &mut document, &set(&rt, alloc, &[(5, 5, 1)]));
    let start = start_of(&rt, alloc, &[(0, 1, 1), (-2, 0, 1)]);
    same(&rt, &apply(&rt, &mut document, &start), &plain(2), &"start");
    let start = document.start();
    same(&rt, &start.get(5, 5), &0, &"start");
    same(&rt, &start.get(0, 1), &1, &"start");
    same(&rt, &start.get(-2, 0), &1, &"start");
}

/// Sets the cells, and stops the test where the start then has other states at (0, 0), (1, 0) and
/// (2, 0).
fn check_set(
    rt: &impl Abort,
    alloc: Global,
    document: &mut Document,
    rows: &[Row],
    revision: u64,
    wanted: [u8; 3],
) {
    let edited = apply(rt, document, &set(rt, alloc, rows));
    same(rt, &edited, &plain(revision), &revision);
    let start = document.start();
    let found = [start.get(0, 0), start.get(1, 0), start.get(2, 0)];
    same(rt, &found, &wanted, &revision);
}

#[test]
fn last_mention_wins(rt: HostRuntime) {
    let alloc = rt.alloc();
    let mut document = opening(&rt, alloc, 0);
    let twice = [(0, 0, 1), (1, 0, 1), (0, 0, 0), (2, 0, 0), (2, 0, 1)];
    check_set(&rt, alloc, &mut document, &twice, 1, [0, 1, 1]);
    let again = [(1, 0, 0), (0, 0, 1)];
    check_set(&rt, alloc, &mut document, &again, 2, [1, 0, 1]);
    check_set(&rt, alloc, &mut document, &[], 3, [1, 0, 1]);
}
