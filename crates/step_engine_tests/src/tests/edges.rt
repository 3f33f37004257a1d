use super::{EDGE, ONE, plane_of, same};
use std::alloc::Global;
use std::process::Abort;
use step_engine::fits;
use test_planes::Row;

fn expect_fits(rt: &impl Abort, alloc: Global, rows: &[Row], generations: u64, wanted: bool) {
    let plane = plane_of(rt, alloc, rows);
    same(rt, &fits(&plane, generations), &wanted, &generations);
}

#[test]
fn fits_up_to_the_edges(rt: HostRuntime) {
    let alloc = rt.alloc();
    let edge = 1 << 61;
    expect_fits(&rt, alloc, &[], u64::MAX, true);
    expect_fits(&rt, alloc, ONE, edge - 1, true);
    expect_fits(&rt, alloc, ONE, edge, false);
    expect_fits(&rt, alloc, &[(-1, -1, 1)], edge - 1, true);
    expect_fits(&rt, alloc, &[(-1, -1, 1)], edge, false);
    expect_fits(&rt, alloc, &[(-EDGE, 0, 1)], 0, true);
    expect_fits(&rt, alloc, &[(-EDGE, 0, 1)], 1, false);
    expect_fits(&rt, alloc, &[(EDGE - 1, 0, 1)], 0, true);
    expect_fits(&rt, alloc, &[(EDGE - 1, 0, 1)], 1, false);
    expect_fits(&rt, alloc, &[(0, -EDGE, 1)], 1, false);
    expect_fits(&rt, alloc, &[(0, EDGE - 1, 1)], 1, false);
    expect_fits(&rt, alloc, &[(3 - EDGE, EDGE - 4, 1)], 3, true);
}
