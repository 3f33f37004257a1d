//! Lines of 8 by 8 cells.
use super::{bitmap, expect_nodes, same};
use macrocell_lines::Bitmap;
use std::process::Abort;

#[test]
fn rows(rt: HostRuntime) {
    let alloc = rt.alloc();
    expect_nodes(&rt, alloc, b".*$", &[bitmap([2, 0, 0, 0, 0, 0, 0, 0])]);
    expect_nodes(&rt, alloc, b"$", &[bitmap([0; 8])]);
    expect_nodes(&rt, alloc, b"........", &[bitmap([0; 8])]);
    let full = b"********$.......*$$*$$$$.*.*";
    expect_nodes(&rt, alloc, full, &[bitmap([255, 128, 0, 1, 0, 0, 0, 10])]);
    expect_nodes(
        &rt,
        alloc,
        b"$$$$$$$*$$$",
        &[bitmap([0, 0, 0, 0, 0, 0, 0, 1])],
    );
    expect_nodes(&rt, alloc, b" *$*\t", &[bitmap([1, 1, 0, 0, 0, 0, 0, 0])]);
}

fn expect_live(rt: &impl Abort, bitmap: Bitmap, x: usize, y: usize, wanted: bool) {
    if x < 8 && y < 8 {
        same(rt, &bitmap.is_live(x, y), &wanted, &(x, y));
    }
}

#[test]
fn cells_of_bitmaps(rt: HostRuntime) {
    let bitmap = Bitmap {
        rows: [2, 0, 0, 0, 0, 0, 0, 128],
    };
    expect_live(&rt, bitmap, 1, 0, true);
    expect_live(&rt, bitmap, 0, 1, false);
    expect_live(&rt, bitmap, 0, 0, false);
    expect_live(&rt, bitmap, 7, 7, true);
    expect_live(&rt, bitmap, 0, 7, false);
}
