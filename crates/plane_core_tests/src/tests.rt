mod laid;
mod measured;
mod rows;

use plane_core::{Plane, SquareRow, are_rows};
use std::alloc::Global;
use std::fmt::Debug;
use std::process::Abort;
use test_planes::Row;

const EDGE: i64 = 1 << 61;

/// Stops the test where what was found isn't what is wanted.
fn same<T: PartialEq + Debug, A: Debug>(rt: &impl Abort, found: &T, wanted: &T, at: &A) {
    assert!(rt; *found == *wanted, "{at:?}: {found:?} is not {wanted:?}");
}

/// The plane with these cells.
fn plane_of(rt: &impl Abort, alloc: Global, rows: &[Row]) -> Plane {
    test_planes::plane_of(alloc, rows).expect(rt, "memory, and rows within the plane")
}

fn row(level: u8, kids: [u32; 4]) -> SquareRow {
    SquareRow { level, kids }
}

/// The plane of these squares.
fn squared(rt: &impl Abort, alloc: Global, rows: &[SquareRow]) -> Plane {
    assert!(rt; are_rows(rows), "the rows stand for no plane");
    Plane::from_squares(alloc, rows).expect(rt, "memory")
}

/// The squares of the levels up to this one, each with four of the one before: all cells are live.
fn full(rt: &impl Abort, alloc: Global, levels: u8) -> Vec<SquareRow> {
    let mut rows = Vec::new(alloc);
    rows.push(row(1, [1; 4])).expect(rt, "memory");
    for level in 2..=levels {
        let kid = u32::from(level) - 1;
        rows.push(row(level, [kid; 4])).expect(rt, "memory");
    }
    rows
}
