mod edges;
mod engine;
mod stops;

use plane_core::Plane;
use std::alloc::Global;
use std::fmt::Debug;
use std::process::Abort;
use test_planes::{Row, rows_of};

const EDGE: i64 = 1 << 61;

/// Stops the test where what was found isn't what is wanted.
fn same<T: PartialEq + Debug, A: Debug>(rt: &impl Abort, found: &T, wanted: &T, at: &A) {
    assert!(rt; *found == *wanted, "{at:?}: {found:?} is not {wanted:?}");
}

/// The plane with the rows.
fn plane_of(rt: &impl Abort, alloc: Global, rows: &[Row]) -> Plane {
    test_planes::plane_of(alloc, rows).expect(rt, "memory, and rows within the plane")
}

/// Stops the test where the live cells of the plane aren't the rows in this order.
fn expect_rows(rt: &impl Abort, alloc: Global, plane: &Plane, rows: &[Row], name: &str) {
    let found = rows_of(alloc, plane).expect(rt, "memory, and at most a thousand live cells");
    same(rt, &found.as_slice(), &rows, &name);
}
