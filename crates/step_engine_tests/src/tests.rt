mod begun;
mod edges;
mod faults;
mod kept;
mod pieces;
mod sequences;

use plane_core::Plane;
use std::alloc::Global;
use std::fmt::Debug;
use std::process::Abort;
use test_planes::Row;

const EDGE: i64 = 1 << 61;

const ONE: &[Row] = &[(0, 0, 1)];

/// Stops the test where what was found isn't what is wanted.
fn same<T: PartialEq + Debug, A: Debug>(rt: &impl Abort, found: &T, wanted: &T, at: &A) {
    assert!(rt; *found == *wanted, "{at:?}: {found:?} is not {wanted:?}");
}

/// The plane with the rows.
fn plane_of(rt: &impl Abort, alloc: Global, rows: &[Row]) -> Plane {
    test_planes::plane_of(alloc, rows).expect(rt, "memory, and rows within the plane")
}
