//! Lines of five numbers.
use super::{bitmap, cells, expect_nodes, square};

#[test]
fn cells_and_squares(rt: HostRuntime) {
    let alloc = rt.alloc();
    let two = [cells(0, 1, 2, 3), square(2, 0, 1, 0, 0)];
    expect_nodes(&rt, alloc, b"", &[]);
    expect_nodes(&rt, alloc, b"1 0 1 2 3\n2 0 1 0 0\n", &two);
    expect_nodes(&rt, alloc, b"\n1 0 1 2 3\n \n# c\n2 0 1 0 0", &two);
    expect_nodes(&rt, alloc, b"1 0 1 2 3\r\n2 0 1 0 0\r\n", &two);
    expect_nodes(&rt, alloc, b" 01  0 001 2 3\t\n2 0 1 0  0 \n", &two);
    expect_nodes(&rt, alloc, b"1 255 0 0 0", &[cells(255, 0, 0, 0)]);
}

#[test]
fn quadrants(rt: HostRuntime) {
    let alloc = rt.alloc();
    let empty = [square(62, 0, 0, 0, 0)];
    expect_nodes(&rt, alloc, b"62 0 0 0 0", &empty);
    let twice = [
        cells(1, 0, 0, 0),
        square(2, 1, 1, 1, 1),
        cells(0, 0, 0, 2),
        square(2, 1, 3, 0, 1),
        square(3, 2, 4, 4, 0),
    ];
    let lines = b"1 1 0 0 0\n2 1 1 1 1\n1 0 0 0 2\n2 1 3 0 1\n3 2 4 4 0";
    expect_nodes(&rt, alloc, lines, &twice);
    let above = [bitmap([1, 0, 0, 0, 0, 0, 0, 0]), square(4, 0, 1, 1, 0)];
    expect_nodes(&rt, alloc, b"*\n4 0 1 1 0", &above);
}
