//! Patterns as they are written.
ghost use Rattle.std.specs.Prelude.{◌≤◌, IsTrue};
ghost use Rattle.worlds.specs.Live.{population};

use super::same;
use multistate_rle::{MOST_WRITTEN, read_rle, write_rle};
use plane_core::Plane;
use std::alloc::Global;
use std::process::Abort;
use test_planes::{Row, is_below};

const LEAST: i64 = -(1 << 61);

const GREATEST: i64 = (1 << 61) - 1;

const FAR: i64 = 1 << 60;

fn is_small(plane: &Plane) -> bool
    ensures { IsTrue result → population plane.now ≤ 1_000_000 }
{
    plane.population() <= u128::from(MOST_WRITTEN)
}

fn plane_of(rt: &impl Abort, alloc: Global, rows: &[Row]) -> Plane {
    test_planes::plane_of(alloc, rows).expect(rt, "memory, and rows within the plane")
}

/// The text of the plane's pattern, which is to be one that can be written.
fn written(
    rt: &impl Abort,
    alloc: Global,
    plane: &Plane,
    name: &str,
    generation: u64,
    states: u16,
) -> Vec<u8> {
    assert!(rt; is_below(plane, states), "a state is too high");
    assert!(rt; is_small(plane), "there are too many cells");
    let text = write_rle(alloc, plane, name.as_bytes(), generation, states);
    text.expect(rt, "memory")
}

/// The cells of a pattern, and its text.
struct Pattern {
    what: &'static str,
    rows: &'static [Row],
    name: &'static str,
    generation: u64,
    states: u16,
    wanted: &'static str,
}

/// Stops the test where a case isn't written as its text.
fn expect_written(rt: &impl Abort, alloc: Global, case: &Pattern) {
    let plane = plane_of(rt, alloc, case.rows);
    let text = written(rt, alloc, &plane, case.name, case.generation, case.states);
    same(rt, &text.as_slice(), &case.wanted.as_bytes(), &case.what);
}

const SIZES: [Pattern; 7] = [
    Pattern {
        what: "the empty pattern",
        rows: &[],
        name: "still",
        generation: 0,
        states: 2,
        wanted: "#CXRLE Pos=0,0 Gen=0\nx = 0, y = 0, rule = still\n!\n",
    },
    Pattern {
        what: "the empty pattern at a generation",
        rows: &[(5, 5, 0)],
        name: "still",
        generation: 77,
        states: 2,
        wanted: "#CXRLE Pos=0,0 Gen=77\nx = 0, y = 0, rule = still\n!\n",
    },
    Pattern {
        what: "two cells",
        rows: &[(-2, 0, 1), (2, 0, 1)],
        name: "X",
        generation: 2,
        states: 2,
        wanted: "#CXRLE Pos=-2,0 Gen=2\nx = 5, y = 1, rule = X\no3bo!\n",
    },
    Pattern {
        what: "a box that no cell is a corner of",
        rows: &[(1, -7, 1), (-4, -5, 1), (9, -5, 1), (0, 3, 1)],
        name: "A,b=c",
        generation: 10,
        states: 2,
        wanted: "#CXRLE Pos=-4,-7 Gen=10\nx = 14, y = 11, rule = A,b=c\n5bo2$o12bo8$4bo!\n",
    },
    Pattern {
        what: "no name, at the greatest generation",
        rows: &[(0, 10, 1)],
        name: "",
        generation: u64::MAX,
        states: 2,
        wanted: "#CXRLE Pos=0,10 Gen=18446744073709551615\nx = 1, y = 1, rule = \no!\n",
    },
    Pattern {
        what: "two cells far apart",
        rows: &[(-FAR, 0, 1), (FAR, 0, 1)],
        name: "X",
        generation: 0,
        states: 2,
        wanted: "#CXRLE Pos=-1152921504606846976,0 Gen=0\nx = 2305843009213693953, y = 1, rule = X\no2305843009213693951bo!\n",
    },
    Pattern {
        what: "the corners of the plane",
        rows: &[(LEAST, LEAST, 1), (GREATEST, GREATEST, 1)],
        name: "X",
        generation: 0,
        states: 2,
        wanted: "#CXRLE Pos=-2305843009213693952,-2305843009213693952 Gen=0\nx = 4611686018427387904, y = 4611686018427387904, rule = X\no4611686018427387903$4611686018427387903bo!\n",
    },
];

#[test]
fn sizes_and_places(rt: HostRuntime) {
    let alloc = rt.alloc();
    for case in &SIZES {
        expect_written(&rt, alloc, case);
    }
}

const RUNS: [Pattern; 8] = [
    Pattern {
        what: "a run of three",
        rows: &[(0, 0, 1), (1, 0, 1), (2, 0, 1)],
        name: "R",
        generation: 0,
        states: 2,
        wanted: "#CXRLE Pos=0,0 Gen=0\nx = 3, y = 1, rule = R\n3o!\n",
    },
    Pattern {
        what: "runs of different states side by side",
        rows: &[(0, 0, 1), (1, 0, 1), (2, 0, 2), (3, 0, 1)],
        name: "R",
        generation: 0,
        states: 3,
        wanted: "#CXRLE Pos=0,0 Gen=0\nx = 4, y = 1, rule = R\n2ABA!\n",
    },
    Pattern {
        what: "a run ends at its row",
        rows: &[(0, 0, 1), (1, 0, 1), (2, 1, 1)],
        name: "R",
        generation: 0,
        states: 2,
        wanted: "#CXRLE Pos=0,0 Gen=0\nx = 3, y = 2, rule = R\n2o$2bo!\n",
    },
    Pattern {
        what: "the zeros at a row's end are left out",
        rows: &[(0, 0, 1), (3, 1, 1), (0, 2, 1)],
        name: "R",
        generation: 0,
        states: 2,
        wanted: "#CXRLE Pos=0,0 Gen=0\nx = 4, y = 3, rule = R\no$3bo$o!\n",
    },
    Pattern {
        what: "rows without cells",
        rows: &[(0, 0, 1), (0, 3, 1), (1, 13, 1)],
        name: "R",
        generation: 0,
        states: 2,
        wanted: "#CXRLE Pos=0,0 Gen=0\nx = 2, y = 14, rule = R\no3$o10$bo!\n",
    },
    Pattern {
        what: "gaps of one and of two",
        rows: &[(0, 0, 1), (2, 0, 1), (5, 0, 1)],
        name: "R",
        generation: 0,
        states: 3,
        wanted: "#CXRLE Pos=0,0 Gen=0\nx = 6, y = 1, rule = R\nA.A2.A!\n",
    },
    Pattern {
        what: "the last letters of each prefix",
        rows: &[
            (0, 0, 1),
            (1, 0, 24),
            (2, 0, 25),
            (3, 0, 48),
            (4, 0, 49),
            (5, 0, 240),
            (6, 0, 241),
            (7, 0, 255),
        ],
        name: "R",
        generation: 0,
        states: 256,
        wanted: "#CXRLE Pos=0,0 Gen=0\nx = 8, y = 1, rule = R\nAXpApXqAxXyAyO!\n",
    },
    Pattern {
        what: "counts before prefixes",
        rows: &[(0, 0, 25), (1, 0, 25), (3, 0, 255), (4, 0, 255)],
        name: "R",
        generation: 0,
        states: 256,
        wanted: "#CXRLE Pos=0,0 Gen=0\nx = 5, y = 1, rule = R\n2pA.2yO!\n",
    },
];

#[test]
fn runs_and_rows(rt: HostRuntime) {
    let alloc = rt.alloc();
    for case in &RUNS {
        expect_written(&rt, alloc, case);
    }
}

/// So many cells of state 1 in the row 0, at the columns 0, 2, 4 and so on.
fn every_other(rt: &impl Abort, alloc: Global, count: i64) -> Vec<Row> {
    let mut rows = Vec::new(alloc);
    for k in 0..count {
        rows.push((k.saturating_mul(2), 0, 1)).expect(rt, "memory");
    }
    rows
}

/// So many cells in every other column, a last one, and the text of these.
struct Filled {
    what: &'static str,
    count: i64,
    last: Row,
    states: u16,
    wanted: &'static str,
}

/// Stops the test where a case isn't written as its text.
fn expect_filled(rt: &impl Abort, alloc: Global, case: &Filled) {
    let mut rows = every_other(rt, alloc, case.count);
    rows.push(case.last).expect(rt, "memory");
    let plane = plane_of(rt, alloc, &rows);
    let text = written(rt, alloc, &plane, "X", 0, case.states);
    same(rt, &text.as_slice(), &case.wanted.as_bytes(), &case.what);
}

const LINES: [Filled; 5] = [
    Filled {
        what: "a full line",
        count: 35,
        last: (70, 0, 1),
        states: 2,
        wanted: "#CXRLE Pos=0,0 Gen=0\nx = 71, y = 1, rule = X\nobobobobobobobobobobobobobobobobobobobobobobobobobobobobobobobobobobob\no!\n",
    },
    Filled {
        what: "a gap that doesn't fit",
        count: 35,
        last: (71, 0, 1),
        states: 2,
        wanted: "#CXRLE Pos=0,0 Gen=0\nx = 72, y = 1, rule = X\nobobobobobobobobobobobobobobobobobobobobobobobobobobobobobobobobobobo\n2bo!\n",
    },
    Filled {
        what: "a row's end fills the line",
        count: 35,
        last: (0, 1, 1),
        states: 2,
        wanted: "#CXRLE Pos=0,0 Gen=0\nx = 69, y = 2, rule = X\nobobobobobobobobobobobobobobobobobobobobobobobobobobobobobobobobobobo$\no!\n",
    },
    Filled {
        what: "the end fills the line",
        count: 34,
        last: (68, 0, 1),
        states: 2,
        wanted: "#CXRLE Pos=0,0 Gen=0\nx = 69, y = 1, rule = X\nobobobobobobobobobobobobobobobobobobobobobobobobobobobobobobobobobobo!\n",
    },
    Filled {
        what: "the end alone on a line",
        count: 35,
        last: (69, 0, 2),
        states: 3,
        wanted: "#CXRLE Pos=0,0 Gen=0\nx = 70, y = 1, rule = X\nA.A.A.A.A.A.A.A.A.A.A.A.A.A.A.A.A.A.A.A.A.A.A.A.A.A.A.A.A.A.A.A.A.A.AB\n!\n",
    },
];

#[test]
fn lines_have_at_most_70_bytes(rt: HostRuntime) {
    let alloc = rt.alloc();
    for case in &LINES {
        expect_filled(&rt, alloc, case);
    }
}

/// Stops the test where a pattern isn't written as the text from which it was read.
fn expect_written_again(rt: &impl Abort, alloc: Global, text: &str) {
    let loaded = read_rle(alloc, text.as_bytes()).expect(rt, "a pattern");
    let found = written(rt, alloc, &loaded.plane, "X", 0, 2);
    same(rt, &found.as_slice(), &text.as_bytes(), &text);
}

#[test]
fn more_than_a_hundred_thousand_cells(rt: HostRuntime) {
    let alloc = rt.alloc();
    expect_written_again(
        &rt,
        alloc,
        "#CXRLE Pos=0,0 Gen=0\nx = 100001, y = 1, rule = X\n100001o!\n",
    );
}
