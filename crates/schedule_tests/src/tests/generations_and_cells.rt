//! Generations, cells and lists of cells that edits name.
use super::{Cells, EDGE, FAR, Row, check_edit, mark, number, opening, same, set, set_many};
use schedule::Document;
use std::alloc::Global;
use std::process::Abort;

fn check_generation(rt: &impl Abort, document: &mut Document, case: &(u64, u8)) {
    let found = number(rt, document, &mark(case.0));
    same(rt, &found, &case.1, &case.0);
}

#[test]
fn generations(rt: HostRuntime) {
    let cases = [
        (0, 0),
        (1, 0),
        (FAR - 1, 0),
        (FAR, 0),
        (FAR + 1, 40),
        (u64::MAX, 40),
    ];
    let mut document = opening(&rt, rt.alloc(), 0);
    for case in &cases {
        check_generation(&rt, &mut document, case);
    }
}

fn check_cells(rt: &impl Abort, alloc: Global, case: &Cells) {
    let edit = set(rt, alloc, case.rows);
    check_edit(rt, alloc, 0, &edit, case.wanted, &case.rows);
}

/// An edit that sets one cell, which is refused by this number or accepted where it is 0.
fn check_cell(rt: &impl Abort, alloc: Global, case: &(i64, i64, u16, u8)) {
    let edit = set(rt, alloc, &[(case.0, case.1, case.2)]);
    check_edit(rt, alloc, 0, &edit, case.3, case);
}

#[test]
fn single_cells(rt: HostRuntime) {
    let cases = [
        (0, 0, 0, 0),
        (0, 0, 1, 0),
        (0, 0, 2, 42),
        (0, 0, 256, 42),
        (0, 0, u16::MAX, 42),
        (EDGE - 1, 0, 1, 0),
        (EDGE, 0, 1, 41),
        (i64::MAX, 0, 1, 41),
        (-EDGE, 0, 1, 0),
        (-EDGE - 1, 0, 1, 41),
        (i64::MIN, 0, 1, 41),
        (0, EDGE - 1, 1, 0),
        (0, EDGE, 1, 41),
        (0, i64::MAX, 1, 41),
        (0, -EDGE, 1, 0),
        (0, -EDGE - 1, 1, 41),
        (0, i64::MIN, 1, 41),
        (EDGE, 0, 2, 41),
    ];
    for case in &cases {
        check_cell(&rt, rt.alloc(), case);
    }
}

// Every cell is looked at, and for its place before any for its state.
const CELLS: [Cells; 4] = [
    Cells {
        rows: &[],
        wanted: 0,
    },
    Cells {
        rows: &[(0, 0, 1), (1, 0, 1), (2, 0, 2)],
        wanted: 42,
    },
    Cells {
        rows: &[(0, 0, 1), (EDGE, 0, 0), (2, 0, 1)],
        wanted: 41,
    },
    Cells {
        rows: &[(0, 0, 2), (EDGE, 0, 0)],
        wanted: 41,
    },
];

#[test]
fn lists_of_cells(rt: HostRuntime) {
    for case in &CELLS {
        check_cells(&rt, rt.alloc(), case);
    }
}

/// So many cells and one more, and the number of the refusal.
type Many = (usize, Row, u8);

fn check_many(rt: &impl Abort, alloc: Global, case: &Many) {
    let edit = set_many(rt, alloc, case.0, case.1);
    check_edit(rt, alloc, 0, &edit, case.2, case);
}

#[test]
fn many_cells(rt: HostRuntime) {
    let cases: [Many; 6] = [
        (9_999, (1, 0, 1), 0),
        (10_000, (1, 0, 1), 47),
        (9_999, (EDGE, 0, 1), 41),
        (10_000, (EDGE, 0, 1), 47),
        (9_999, (1, 0, 2), 42),
        (10_000, (1, 0, 2), 47),
    ];
    for case in &cases {
        check_many(&rt, rt.alloc(), case);
    }
}
