//! Planes as the rows of their squares.
use super::{EDGE, full, row, same, squared};
use plane_core::{Plane, SquareRow, are_rows};
use std::alloc::Global;
use std::process::Abort;

/// The given rows become the wanted ones.
fn becomes(rt: &impl Abort, alloc: Global, given: &[SquareRow], wanted: &[SquareRow]) {
    let plane = squared(rt, alloc, given);
    let found = plane.squares().expect(rt, "memory");
    let wanted = wanted.to_vec(alloc).expect(rt, "memory");
    same(rt, &found, &wanted, &given.len());
}

fn has(rt: &impl Abort, plane: &Plane, x: i64, y: i64, state: u8) {
    same(rt, &plane.get(x, y), &state, &(x, y));
}

#[test]
fn the_empty_plane_has_one_row(rt: HostRuntime) {
    let alloc = rt.alloc();
    let empty = [row(1, [0; 4])];
    becomes(&rt, alloc, &[], &empty);
    becomes(&rt, alloc, &empty, &empty);
    becomes(&rt, alloc, &[row(1, [0; 4]), row(2, [1, 0, 1, 0])], &empty);
}

#[test]
fn canonical_rows_stay(rt: HostRuntime) {
    let alloc = rt.alloc();
    let cell = [row(1, [0, 0, 0, 5])];
    becomes(&rt, alloc, &cell, &cell);
    let two = [
        row(1, [1, 0, 0, 0]),
        row(1, [2, 0, 0, 0]),
        row(2, [1, 2, 0, 0]),
    ];
    becomes(&rt, alloc, &two, &two);
}

#[test]
fn the_root_is_the_least(rt: HostRuntime) {
    let alloc = rt.alloc();
    let high = [
        row(1, [1, 0, 0, 0]),
        row(2, [0, 0, 0, 1]),
        row(3, [0, 0, 0, 0]),
    ];
    becomes(&rt, alloc, &high[..2], &[row(1, [0, 0, 0, 1])]);
    becomes(&rt, alloc, &high, &[row(1, [0; 4])]);
    let higher = [
        row(1, [7, 0, 0, 0]),
        row(2, [1, 0, 0, 0]),
        row(3, [0, 0, 0, 2]),
    ];
    becomes(&rt, alloc, &higher, &[row(1, [0, 0, 0, 7])]);
    let four = [
        row(1, [0, 0, 0, 1]),
        row(1, [0, 0, 2, 0]),
        row(1, [0, 3, 0, 0]),
        row(1, [4, 0, 0, 0]),
        row(2, [1, 2, 3, 4]),
    ];
    becomes(&rt, alloc, &four, &[row(1, [1, 2, 3, 4])]);
}

#[test]
fn the_least_root_has_an_order_of_its_own(rt: HostRuntime) {
    let alloc = rt.alloc();
    let wide = [
        row(1, [5, 0, 0, 0]),
        row(2, [0, 0, 0, 1]),
        row(1, [0, 0, 0, 6]),
        row(2, [3, 0, 0, 0]),
        row(3, [2, 0, 0, 4]),
    ];
    let least = [
        row(1, [5, 0, 0, 0]),
        row(1, [0, 0, 0, 6]),
        row(2, [1, 0, 0, 2]),
    ];
    becomes(&rt, alloc, &wide, &least);
    becomes(&rt, alloc, &least, &least);
}

#[test]
fn the_least_root_may_be_among_the_rows(rt: HostRuntime) {
    let alloc = rt.alloc();
    let given = [
        row(1, [1, 2, 3, 4]),
        row(1, [0, 0, 0, 1]),
        row(1, [0, 0, 2, 0]),
        row(1, [0, 3, 0, 0]),
        row(1, [4, 0, 0, 0]),
        row(2, [2, 3, 4, 5]),
    ];
    becomes(&rt, alloc, &given, &[row(1, [1, 2, 3, 4])]);
}

#[test]
fn each_square_stands_once_in_the_order_of_the_walk(rt: HostRuntime) {
    let alloc = rt.alloc();
    let twice = [
        row(1, [1, 0, 0, 0]),
        row(1, [1, 0, 0, 0]),
        row(2, [1, 0, 2, 0]),
    ];
    becomes(
        &rt,
        alloc,
        &twice,
        &[row(1, [1, 0, 0, 0]), row(2, [1, 0, 1, 0])],
    );
    let reversed = [
        row(1, [2, 0, 0, 0]),
        row(1, [1, 0, 0, 0]),
        row(2, [2, 1, 0, 0]),
    ];
    becomes(
        &rt,
        alloc,
        &reversed,
        &[
            row(1, [1, 0, 0, 0]),
            row(1, [2, 0, 0, 0]),
            row(2, [1, 2, 0, 0]),
        ],
    );
    let unused = [
        row(1, [1, 1, 1, 1]),
        row(1, [3, 0, 0, 0]),
        row(2, [2, 0, 0, 0]),
    ];
    becomes(
        &rt,
        alloc,
        &unused,
        &[row(1, [3, 0, 0, 0]), row(2, [1, 0, 0, 0])],
    );
}

#[test]
fn cells_lie_in_their_quadrants(rt: HostRuntime) {
    let alloc = rt.alloc();
    let rows = [
        row(1, [1, 2, 3, 4]),
        row(2, [1, 0, 0, 0]),
        row(3, [2, 0, 0, 1]),
    ];
    assert!(&rt; !are_rows(&rows));
    let plane = squared(&rt, alloc, &rows[..2]);
    has(&rt, &plane, -2, -2, 1);
    has(&rt, &plane, -1, -2, 2);
    has(&rt, &plane, -2, -1, 3);
    has(&rt, &plane, -1, -1, 4);
    has(&rt, &plane, 0, 0, 0);
    has(&rt, &plane, -3, -2, 0);
    has(&rt, &plane, i64::MIN, i64::MAX, 0);
    has(&rt, &Plane::empty(alloc), 0, 0, 0);
}

#[test]
fn a_full_plane_has_62_rows(rt: HostRuntime) {
    let alloc = rt.alloc();
    let rows = full(&rt, alloc, 62);
    becomes(&rt, alloc, &rows, &rows);
    let plane = squared(&rt, alloc, &rows);
    has(&rt, &plane, 0, 0, 1);
    has(&rt, &plane, -EDGE, -EDGE, 1);
    has(&rt, &plane, EDGE - 1, -EDGE, 1);
    has(&rt, &plane, -EDGE, EDGE - 1, 1);
    has(&rt, &plane, EDGE - 1, EDGE - 1, 1);
    has(&rt, &plane, EDGE, 0, 0);
    has(&rt, &plane, 0, -EDGE - 1, 0);
}

/// Whether the planes of two lists of rows are equal.
fn are_equal(rt: &impl Abort, alloc: Global, a: &[SquareRow], b: &[SquareRow]) -> bool {
    squared(rt, alloc, a).equals(&squared(rt, alloc, b))
}

#[test]
fn equal_planes_have_equal_cells(rt: HostRuntime) {
    let alloc = rt.alloc();
    let small = [row(1, [0, 0, 0, 1])];
    let high = [row(1, [1, 0, 0, 0]), row(2, [0, 0, 0, 1])];
    assert!(&rt; are_equal(&rt, alloc, &small, &high), "another root");
    assert!(&rt; are_equal(&rt, alloc, &[], &[row(1, [0; 4])]), "no cells");
    assert!(&rt;
        !are_equal(&rt, alloc, &small, &[row(1, [0, 0, 0, 2])]),
        "another state"
    );
    assert!(&rt;
        !are_equal(&rt, alloc, &small, &[row(1, [0, 0, 1, 0])]),
        "another place"
    );
    assert!(&rt; !are_equal(&rt, alloc, &small, &[]), "a cell more");
}

#[test]
fn a_copy_is_equal(rt: HostRuntime) {
    let plane = squared(&rt, rt.alloc(), &[row(1, [0, 9, 0, 0])]);
    let copy = plane.copy().expect(&rt, "memory");
    assert!(&rt; copy.equals(&plane));
}

#[test]
fn rows_that_stand_for_no_plane(rt: HostRuntime) {
    assert!(&rt;
        are_rows(&[row(1, [255; 4]), row(2, [0, 1, 1, 0])]),
        "a plane"
    );
    assert!(&rt; !are_rows(&[row(0, [0; 4])]), "a level of 0");
    assert!(&rt; !are_rows(&[row(63, [0; 4])]), "a level above 62");
    assert!(&rt; !are_rows(&[row(1, [0, 256, 0, 0])]), "a state above 255");
    assert!(&rt;
        !are_rows(&[row(2, [0, 0, 1, 0]), row(1, [0; 4])]),
        "a later row"
    );
    assert!(&rt;
        !are_rows(&[row(1, [0; 4]), row(2, [1, 0, 0, 2])]),
        "the row itself"
    );
    assert!(&rt;
        !are_rows(&[row(1, [0; 4]), row(3, [1, 0, 0, 0])]),
        "a row two levels below"
    );
}
