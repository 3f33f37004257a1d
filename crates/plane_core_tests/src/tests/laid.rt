//! Cells that are laid on planes, and what planes tell of them.
use super::{EDGE, plane_of, same};
use plane_core::{Bounds, Cell, Plane, Span};
use std::alloc::Global;
use std::process::Abort;
use test_planes::{Row, all_can_be_drawn, laid, rows_of};

const LAST: i64 = EDGE - 1;

/// Half the side of the square in which spans in reading order are woven.
const HALF: i64 = 1 << 31;

/// Cells that are laid on a plane, and its rows before and after.
struct Laying {
    what: &'static str,
    before: &'static [Row],
    cells: &'static [Row],
    after: &'static [Row],
}

/// Stops the test where the live cells of the plane aren't the rows in this order.
fn expect_rows(rt: &impl Abort, alloc: Global, plane: &Plane, rows: &[Row], name: &str) {
    let found = rows_of(alloc, plane).expect(rt, "memory, and at most a thousand live cells");
    same(rt, &found.as_slice(), &rows, &name);
}

/// Stops the test where the cells of a case don't give its rows, or change the plane before.
fn expect_laid(rt: &impl Abort, alloc: Global, case: &Laying) {
    let plane = plane_of(rt, alloc, case.before);
    let later = laid(alloc, &plane, case.cells).expect(rt, "memory, and rows within the plane");
    let copy = later.copy().expect(rt, "memory");
    same(
        rt,
        &later.equals(&plane_of(rt, alloc, case.after)),
        &true,
        &case.what,
    );
    expect_rows(rt, alloc, &later, case.after, case.what);
    expect_rows(rt, alloc, &plane, case.before, case.what);
    expect_rows(rt, alloc, &copy, case.after, case.what);
}

const LAYINGS: [Laying; 10] = [
    Laying {
        what: "nothing",
        before: &[],
        cells: &[],
        after: &[],
    },
    Laying {
        what: "the last mention wins",
        before: &[],
        cells: &[(1, 2, 3), (1, 2, 255)],
        after: &[(1, 2, 255)],
    },
    Laying {
        what: "0 takes away what the list laid",
        before: &[],
        cells: &[(1, 2, 3), (1, 2, 0)],
        after: &[],
    },
    Laying {
        what: "a state after 0 stays",
        before: &[],
        cells: &[(1, 2, 0), (1, 2, 3)],
        after: &[(1, 2, 3)],
    },
    Laying {
        what: "0 takes away what was there, and others stay",
        before: &[(0, 0, 1), (5, 0, 2)],
        cells: &[(0, 0, 0), (6, 0, 1)],
        after: &[(5, 0, 2), (6, 0, 1)],
    },
    Laying {
        what: "a state replaces another",
        before: &[(0, 0, 1)],
        cells: &[(0, 0, 2)],
        after: &[(0, 0, 2)],
    },
    Laying {
        what: "row by row from the top, each from the left",
        before: &[],
        cells: &[(0, 1, 1), (1, 0, 2), (-1, 1, 3), (0, 0, 4), (1, -1, 5)],
        after: &[(1, -1, 5), (0, 0, 4), (1, 0, 2), (-1, 1, 3), (0, 1, 1)],
    },
    Laying {
        what: "the corners of the plane",
        before: &[],
        cells: &[(LAST, LAST, 2), (-EDGE, -EDGE, 1), (LAST, -EDGE, 3)],
        after: &[(-EDGE, -EDGE, 1), (LAST, -EDGE, 3), (LAST, LAST, 2)],
    },
    Laying {
        what: "three corners are taken away",
        before: &[
            (-EDGE, -EDGE, 1),
            (LAST, -EDGE, 2),
            (-EDGE, LAST, 3),
            (LAST, LAST, 4),
        ],
        cells: &[(-EDGE, -EDGE, 0), (LAST, -EDGE, 0), (-EDGE, LAST, 0)],
        after: &[(LAST, LAST, 4)],
    },
    Laying {
        what: "all cells are taken away",
        before: &[(100, -7, 2), (0, 0, 1)],
        cells: &[(0, 0, 0), (100, -7, 0)],
        after: &[],
    },
];

#[test]
fn lays_cells(rt: HostRuntime) {
    let alloc = rt.alloc();
    for case in &LAYINGS {
        expect_laid(&rt, alloc, case);
    }
}

/// Spans as x, y, count and state, and the rows of the plane with their cells alone.
struct Drawing {
    what: &'static str,
    spans: &'static [(i64, i64, u32, u16)],
    rows: &'static [Row],
}

const DRAWINGS: [Drawing; 12] = [
    Drawing {
        what: "no span",
        spans: &[],
        rows: &[],
    },
    Drawing {
        what: "a span of no cell",
        spans: &[(5, 5, 0, 1)],
        rows: &[],
    },
    Drawing {
        what: "a span across the middle",
        spans: &[(-3, 0, 5, 2)],
        rows: &[(-3, 0, 2), (-2, 0, 2), (-1, 0, 2), (0, 0, 2), (1, 0, 2)],
    },
    Drawing {
        what: "the last span over a cell wins",
        spans: &[(0, -7, 5, 1), (2, -7, 2, 3), (3, -7, 1, 4)],
        rows: &[(0, -7, 1), (1, -7, 1), (2, -7, 3), (3, -7, 4), (4, -7, 1)],
    },
    Drawing {
        what: "a span of state 0 takes cells away",
        spans: &[(-2, -1, 4, 255), (-1, -1, 2, 0)],
        rows: &[(-2, -1, 255), (1, -1, 255)],
    },
    Drawing {
        what: "spans at the edges of the plane",
        spans: &[(LAST - 1, LAST, 2, 9), (-EDGE, -EDGE, 2, 7)],
        rows: &[
            (-EDGE, -EDGE, 7),
            (-EDGE + 1, -EDGE, 7),
            (LAST - 1, LAST, 9),
            (LAST, LAST, 9),
        ],
    },
    Drawing {
        what: "equal squares apart",
        spans: &[(0, 0, 2, 1), (64, 0, 2, 1), (0, 64, 2, 1), (64, 65, 2, 1)],
        rows: &[
            (0, 0, 1),
            (1, 0, 1),
            (64, 0, 1),
            (65, 0, 1),
            (0, 64, 1),
            (1, 64, 1),
            (64, 65, 1),
            (65, 65, 1),
        ],
    },
    Drawing {
        what: "one span by others, in the same row and the next",
        spans: &[(0, 1, 1, 1), (1, 1, 1, 2), (0, 2, 1, 3), (-1, 1, 1, 4)],
        rows: &[(-1, 1, 4), (0, 1, 1), (1, 1, 2), (0, 2, 3)],
    },
    Drawing {
        what: "two rows of one state, then a row alone",
        spans: &[(-3, -2, 4, 1), (-2, -1, 4, 1), (5, -1, 1, 2), (-3, 2, 1, 1)],
        rows: &[
            (-3, -2, 1),
            (-2, -2, 1),
            (-1, -2, 1),
            (0, -2, 1),
            (-2, -1, 1),
            (-1, -1, 1),
            (0, -1, 1),
            (1, -1, 1),
            (5, -1, 2),
            (-3, 2, 1),
        ],
    },
    Drawing {
        what: "a span of state 0 between others",
        spans: &[(-1, 0, 1, 3), (0, 0, 2, 0), (2, 0, 1, 4)],
        rows: &[(-1, 0, 3), (2, 0, 4)],
    },
    Drawing {
        what: "spans 2^31 from the middle, and none farther",
        spans: &[(-HALF, -HALF, 1, 1), (HALF - 2, HALF - 1, 1, 2)],
        rows: &[(-HALF, -HALF, 1), (HALF - 2, HALF - 1, 2)],
    },
    Drawing {
        what: "a span one farther",
        spans: &[(-HALF, -HALF, 1, 1), (HALF - 1, HALF - 1, 1, 2)],
        rows: &[(-HALF, -HALF, 1), (HALF - 1, HALF - 1, 2)],
    },
];

/// Stops the test where the plane that is made of the spans hasn't these rows.
fn expect_drawn(rt: &impl Abort, alloc: Global, case: &Drawing) {
    let mut spans = Vec::new(alloc);
    for (x, y, count, state) in case.spans {
        let span = Span {
            x: *x,
            y: *y,
            count: *count,
            state: *state,
        };
        spans.push(span).expect(rt, "memory");
    }
    assert!(rt; all_can_be_drawn(&spans), "a span lies outside the plane");
    let plane = Plane::from_spans(alloc, spans).expect(rt, "memory");
    expect_rows(rt, alloc, &plane, case.rows, case.what);
    let wanted = plane_of(rt, alloc, case.rows);
    same(rt, &plane.equals(&wanted), &true, &case.what);
}

#[test]
fn makes_planes_of_spans(rt: HostRuntime) {
    let alloc = rt.alloc();
    for case in &DRAWINGS {
        expect_drawn(&rt, alloc, case);
    }
}

fn expect_state(rt: &impl Abort, plane: &Plane, x: i64, y: i64, state: u8) {
    same(rt, &plane.get(x, y), &state, &(x, y));
}

#[test]
fn finds_the_state_of_each_cell(rt: HostRuntime) {
    let rows = [(-EDGE, LAST, 7), (LAST, -EDGE, 8), (3, -4, 255)];
    let plane = plane_of(&rt, rt.alloc(), &rows);
    expect_state(&rt, &plane, -EDGE, LAST, 7);
    expect_state(&rt, &plane, LAST, -EDGE, 8);
    expect_state(&rt, &plane, 3, -4, 255);
    expect_state(&rt, &plane, -4, 3, 0);
    expect_state(&rt, &plane, 0, 0, 0);
    expect_state(&rt, &plane, -EDGE, -EDGE, 0);
    expect_state(&rt, &plane, EDGE, -EDGE, 0);
    expect_state(&rt, &plane, -EDGE - 1, LAST, 0);
    expect_state(&rt, &plane, i64::MIN, i64::MIN, 0);
    expect_state(&rt, &plane, i64::MAX, i64::MAX, 0);
    expect_state(&rt, &plane, i64::MIN, i64::MAX, 0);
}

fn expect_live(rt: &impl Abort, alloc: Global, rows: &[Row], limit: u32, wanted: Option<usize>) {
    let found = plane_of(rt, alloc, rows).live(limit).expect(rt, "memory");
    same(rt, &found.map(|cells| cells.len()), &wanted, &limit);
}

#[test]
fn lists_live_cells_up_to_a_limit(rt: HostRuntime) {
    let alloc = rt.alloc();
    let three = [(0, 0, 1), (1, 0, 1), (0, 9, 2)];
    expect_live(&rt, alloc, &[], 0, Some(0));
    expect_live(&rt, alloc, &three, 0, None);
    expect_live(&rt, alloc, &three, 2, None);
    expect_live(&rt, alloc, &three, 3, Some(3));
    expect_live(&rt, alloc, &three, u32::MAX, Some(3));
}

/// Stops the test where the plane tells other numbers or another box of itself.
fn expect_told(
    rt: &impl Abort,
    plane: &Plane,
    population: u128,
    greatest: u8,
    bounds: Option<Bounds>,
) {
    same(rt, &plane.population(), &population, &"population");
    same(rt, &plane.greatest(), &greatest, &"greatest");
    same(rt, &plane.bounds(), &bounds, &"bounds");
}

fn expect_count(rt: &impl Abort, counts: &[u128], state: usize, count: u128) {
    same(rt, &counts.get(state).copied(), &Some(count), &state);
}

#[test]
fn tells_of_an_empty_plane(rt: HostRuntime) {
    let plane = Plane::empty(rt.alloc());
    expect_told(&rt, &plane, 0, 0, None);
    let counts = plane.counts().expect(&rt, "memory");
    expect_count(&rt, &counts, 0, 0);
    expect_count(&rt, &counts, 1, 0);
    expect_count(&rt, &counts, 255, 0);
}

#[test]
fn tells_of_a_cell(rt: HostRuntime) {
    let plane = plane_of(&rt, rt.alloc(), &[(-3, 7, 1)]);
    let bounds = Bounds {
        left: -3,
        top: 7,
        right: -3,
        bottom: 7,
    };
    expect_told(&rt, &plane, 1, 1, Some(bounds));
    let counts = plane.counts().expect(&rt, "memory");
    expect_count(&rt, &counts, 0, 0);
    expect_count(&rt, &counts, 1, 1);
    expect_count(&rt, &counts, 2, 0);
}

#[test]
fn tells_of_a_plane(rt: HostRuntime) {
    let rows = [(0, -2, 4), (5, 0, 2), (-1, 1, 255), (2, 3, 2)];
    let plane = plane_of(&rt, rt.alloc(), &rows);
    let bounds = Bounds {
        left: -1,
        top: -2,
        right: 5,
        bottom: 3,
    };
    expect_told(&rt, &plane, 4, 255, Some(bounds));
    let counts = plane.counts().expect(&rt, "memory");
    expect_count(&rt, &counts, 0, 0);
    expect_count(&rt, &counts, 1, 0);
    expect_count(&rt, &counts, 2, 2);
    expect_count(&rt, &counts, 4, 1);
    expect_count(&rt, &counts, 255, 1);
}

#[test]
fn tells_of_a_plane_to_its_corners(rt: HostRuntime) {
    let plane = plane_of(&rt, rt.alloc(), &[(LAST, -EDGE, 3), (-EDGE, LAST, 2)]);
    let bounds = Bounds {
        left: -EDGE,
        top: -EDGE,
        right: LAST,
        bottom: LAST,
    };
    expect_told(&rt, &plane, 2, 3, Some(bounds));
    let counts = plane.counts().expect(&rt, "memory");
    expect_count(&rt, &counts, 1, 0);
    expect_count(&rt, &counts, 2, 1);
    expect_count(&rt, &counts, 3, 1);
}

/// The rows of a plane, and those in a box, by its left, top, right and bottom edge.
struct Boxed {
    what: &'static str,
    rows: &'static [Row],
    edges: [i64; 4],
    wanted: &'static [Row],
}

/// Stops the test where the cells of a case within its box aren't the wanted ones, in any order.
fn expect_within(rt: &impl Abort, alloc: Global, case: &Boxed) {
    let plane = plane_of(rt, alloc, case.rows);
    let [left, top, right, bottom] = case.edges;
    let within = Bounds {
        left,
        top,
        right,
        bottom,
    };
    let found = plane.cells_within(&within).expect(rt, "memory");
    same(rt, &found.len(), &case.wanted.len(), &case.what);
    for row in case.wanted {
        same(rt, &has_row(&found, *row), &true, &case.what);
    }
}

fn has_row(cells: &[Cell], row: Row) -> bool {
    let (x, y, state) = row;
    cells.iter().any(|cell| cell.x == x && cell.y == y && u16::from(cell.state) == state)
}

const CROSS: [Row; 5] = [(3, -1, 1), (2, 0, 2), (3, 0, 3), (4, 0, 255), (3, 1, 5)];

const BOXES: [Boxed; 8] = [
    Boxed {
        what: "no cell",
        rows: &[],
        edges: [-5, -5, 5, 5],
        wanted: &[],
    },
    Boxed {
        what: "all cells, on the edges of the box",
        rows: &CROSS,
        edges: [2, -1, 4, 1],
        wanted: &CROSS,
    },
    Boxed {
        what: "a row of them",
        rows: &CROSS,
        edges: [0, 0, 3, 0],
        wanted: &[(2, 0, 2), (3, 0, 3)],
    },
    Boxed {
        what: "a column of them",
        rows: &CROSS,
        edges: [3, 0, 3, 9],
        wanted: &[(3, 0, 3), (3, 1, 5)],
    },
    Boxed {
        what: "a box between the cells",
        rows: &CROSS,
        edges: [2, 1, 2, 1],
        wanted: &[],
    },
    Boxed {
        what: "a box whose right edge is left of its left one",
        rows: &CROSS,
        edges: [4, -1, 2, 1],
        wanted: &[],
    },
    Boxed {
        what: "the corners of the plane",
        rows: &[(-EDGE, -EDGE, 1), (LAST, LAST, 2), (0, 0, 3)],
        edges: [-EDGE, -EDGE, LAST, LAST],
        wanted: &[(-EDGE, -EDGE, 1), (LAST, LAST, 2), (0, 0, 3)],
    },
    Boxed {
        what: "a box that reaches beyond the plane",
        rows: &[(-EDGE, -EDGE, 1), (LAST, LAST, 2), (0, 0, 3)],
        edges: [1, i64::MIN, i64::MAX, i64::MAX],
        wanted: &[(LAST, LAST, 2)],
    },
];

#[test]
fn finds_the_cells_in_a_box(rt: HostRuntime) {
    let alloc = rt.alloc();
    for case in &BOXES {
        expect_within(&rt, alloc, case);
    }
}

/// Stops the test where two planes aren't equal, or unequal, in both orders.
fn expect_compared(rt: &impl Abort, alloc: Global, rows: &[Row], others: &[Row], wanted: bool) {
    let plane = plane_of(rt, alloc, rows);
    let other = plane_of(rt, alloc, others);
    let copy = plane.copy().expect(rt, "memory");
    same(rt, &plane.equals(&other), &wanted, &(rows, others));
    same(rt, &other.equals(&plane), &wanted, &(others, rows));
    same(rt, &plane.equals(&copy), &true, &rows);
}

#[test]
fn compares_planes(rt: HostRuntime) {
    let alloc = rt.alloc();
    let one = [(0, 0, 1)];
    let two = [(0, 0, 1), (2, 3, 4)];
    expect_compared(&rt, alloc, &[], &[], true);
    expect_compared(&rt, alloc, &[], &one, false);
    expect_compared(&rt, alloc, &[], &[(0, 0, 1), (0, 0, 0)], true);
    expect_compared(&rt, alloc, &one, &[(1, 0, 1)], false);
    expect_compared(&rt, alloc, &one, &[(0, 0, 2)], false);
    expect_compared(&rt, alloc, &two, &[(2, 3, 4), (0, 0, 1)], true);
    expect_compared(&rt, alloc, &two, &[(0, 0, 4), (2, 3, 1)], false);
}

#[test]
fn starts_empty(rt: HostRuntime) {
    let plane = Plane::empty(rt.alloc());
    expect_rows(&rt, rt.alloc(), &plane, &[], "the empty plane");
}
