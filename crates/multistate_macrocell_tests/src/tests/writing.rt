//! Writing.
use super::{read, same};
use multistate_macrocell::write_mc;
use plane_core::{Plane, SquareRow, are_rows};
use std::alloc::Global;
use std::process::Abort;

/// Stops the test where the plane of these rows isn't written as this text.
fn expect_text(
    rt: &impl Abort,
    alloc: Global,
    rows: &[SquareRow],
    name: &[u8],
    generation: u64,
    wanted: &[u8],
) {
    assert!(rt; are_rows(rows), "the rows stand for no plane");
    let plane = Plane::from_squares(alloc, rows).expect(rt, "memory");
    let text = write_mc(alloc, &plane, name, generation).expect(rt, "memory");
    same(rt, &text.as_slice(), &wanted, &name);
}

fn row(level: u8, kids: [u32; 4]) -> SquareRow {
    SquareRow { level, kids }
}

#[test]
fn the_empty_pattern_is_one_square(rt: HostRuntime) {
    let wanted = b"[M2] (experiment desk)\n#R still\n#G 0\n1 0 0 0 0\n";
    expect_text(&rt, rt.alloc(), &[], b"still", 0, wanted);
    let empty = [row(1, [0; 4]), row(2, [1, 1, 0, 1])];
    expect_text(&rt, rt.alloc(), &empty, b"still", 0, wanted);
}

#[test]
fn a_square_stands_once(rt: HostRuntime) {
    let rows = [
        row(1, [1, 0, 0, 0]),
        row(2, [0, 1, 0, 0]),
        row(2, [1, 0, 0, 0]),
        row(3, [0, 0, 2, 2]),
    ];
    let wanted = b"[M2] (experiment desk)\n#R X\n#G 2\n1 1 0 0 0\n2 0 1 0 0\n3 0 0 2 2\n";
    expect_text(&rt, rt.alloc(), &rows, b"X", 2, wanted);
}

#[test]
fn what_is_written_is_read_again(rt: HostRuntime) {
    let alloc = rt.alloc();
    let text =
        b"[M2]\n#R B3/S23\n#G 7\n.*$..*$***$\n1 0 255 0 1\n2 0 0 2 0\n3 3 0 0 3\n4 1 4 0 1\n";
    let loaded = read(&rt, alloc, text);
    let name = loaded.rule_name.as_slice();
    let written = write_mc(alloc, &loaded.plane, name, loaded.generation).expect(&rt, "memory");
    let again = read(&rt, alloc, &written);
    same(&rt, &again.plane.equals(&loaded.plane), &true, &"plane");
    same(&rt, &again.rule_name.as_slice(), &name, &"name");
    same(&rt, &again.generation, &7, &"generation");
}
