use super::EDGE;
use super::engine::expect_later;
use std::alloc::Global;
use std::process::Abort;
use test_planes::Row;
use test_rules::Copying;

const NORTH: usize = 1;

const EAST: usize = 3;

const SOUTH: usize = 5;

const WEST: usize = 7;

/// Stops the test where a cell one place from an edge doesn't go to the edge.
fn expect_reached(rt: &impl Abort, alloc: Global, from: usize, before: Row, after: Row) {
    expect_later(rt, alloc, &Copying { from }, &[before], 1, &[after]);
}

#[test]
fn reaches_the_edges(rt: HostRuntime) {
    let alloc = rt.alloc();
    expect_reached(&rt, alloc, WEST, (EDGE - 2, 0, 3), (EDGE - 1, 0, 3));
    expect_reached(&rt, alloc, EAST, (1 - EDGE, 0, 3), (-EDGE, 0, 3));
    expect_reached(&rt, alloc, NORTH, (0, EDGE - 2, 3), (0, EDGE - 1, 3));
    expect_reached(&rt, alloc, SOUTH, (0, 1 - EDGE, 3), (0, -EDGE, 3));
}
