//! What a plane tells of its cells without listing them.
use super::{full, row, same, squared};
use plane_core::{Bounds, Plane, SquareRow};
use std::alloc::Global;
use std::process::Abort;

#[derive(Clone, Copy)]
struct Case {
    population: u128,
    greatest: u8,
    bounds: Option<Bounds>,
}

/// The plane of the rows has these measures.
fn measures(rt: &impl Abort, alloc: Global, rows: &[SquareRow], wanted: &Case) {
    let plane = squared(rt, alloc, rows);
    same(rt, &plane.population(), &wanted.population, &rows.len());
    same(rt, &plane.greatest(), &wanted.greatest, &rows.len());
    same(rt, &plane.bounds(), &wanted.bounds, &rows.len());
}

/// The plane of the rows has as many cells of the state.
fn has_count(rt: &impl Abort, alloc: Global, rows: &[SquareRow], state: usize, wanted: u128) {
    let plane = squared(rt, alloc, rows);
    let counts = plane.counts().expect(rt, "memory");
    assert!(rt; state < 256);
    same(rt, &counts[state], &wanted, &state);
}

/// How many live cells there are by the counts of their states.
fn total(rt: &impl Abort, alloc: Global, rows: &[SquareRow]) -> u128 {
    let plane = squared(rt, alloc, rows);
    let counts = plane.counts().expect(rt, "memory");
    let mut total = 0;
    for count in counts {
        total = count.saturating_add(total);
    }
    total
}

#[test]
fn nothing_is_live(rt: HostRuntime) {
    let alloc = rt.alloc();
    let none = Case {
        population: 0,
        greatest: 0,
        bounds: None,
    };
    measures(&rt, alloc, &[], &none);
    measures(&rt, alloc, &[row(1, [0; 4])], &none);
    has_count(&rt, alloc, &[], 0, 0);
    has_count(&rt, alloc, &[], 1, 0);
    let empty = Plane::empty(alloc);
    same(&rt, &empty.population(), &0, &"empty");
    same(&rt, &empty.bounds(), &None, &"empty");
}

// Four cells in the upper left 2 by 2 square, and one of them again in the lower right.
const SPREAD: [SquareRow; 3] = [
    SquareRow {
        level: 1,
        kids: [1, 2, 0, 7],
    },
    SquareRow {
        level: 1,
        kids: [0, 0, 0, 7],
    },
    SquareRow {
        level: 2,
        kids: [1, 0, 0, 2],
    },
];

#[test]
fn a_pattern_of_two_squares(rt: HostRuntime) {
    let alloc = rt.alloc();
    let wanted = Case {
        population: 4,
        greatest: 7,
        bounds: Some(Bounds {
            left: -2,
            top: -2,
            right: 1,
            bottom: 1,
        }),
    };
    measures(&rt, alloc, &SPREAD, &wanted);
    has_count(&rt, alloc, &SPREAD, 0, 0);
    has_count(&rt, alloc, &SPREAD, 1, 1);
    has_count(&rt, alloc, &SPREAD, 2, 1);
    has_count(&rt, alloc, &SPREAD, 7, 2);
    has_count(&rt, alloc, &SPREAD, 8, 0);
    same(&rt, &total(&rt, alloc, &SPREAD), &4, &"spread");
}

#[test]
fn bounds_lie_where_the_cells_do(rt: HostRuntime) {
    let alloc = rt.alloc();
    let north_east = [
        row(1, [0, 255, 0, 0]),
        row(2, [0, 1, 0, 0]),
        row(3, [0, 2, 0, 0]),
    ];
    let wanted = Case {
        population: 1,
        greatest: 255,
        bounds: Some(Bounds {
            left: 3,
            top: -4,
            right: 3,
            bottom: -4,
        }),
    };
    measures(&rt, alloc, &north_east, &wanted);
    has_count(&rt, alloc, &north_east, 255, 1);
    let south_west = [
        row(1, [0, 0, 3, 0]),
        row(2, [0, 0, 1, 0]),
        row(3, [0, 0, 2, 0]),
    ];
    let wanted = Case {
        population: 1,
        greatest: 3,
        bounds: Some(Bounds {
            left: -4,
            top: 3,
            right: -4,
            bottom: 3,
        }),
    };
    measures(&rt, alloc, &south_west, &wanted);
}

#[test]
fn sixty_one_rows_of_live_cells(rt: HostRuntime) {
    let alloc = rt.alloc();
    let rows = full(&rt, alloc, 61);
    let cells = 5_316_911_983_139_663_491_615_228_241_121_378_304;
    let wanted = Case {
        population: cells,
        greatest: 1,
        bounds: Some(Bounds {
            left: -1_152_921_504_606_846_976,
            top: -1_152_921_504_606_846_976,
            right: 1_152_921_504_606_846_975,
            bottom: 1_152_921_504_606_846_975,
        }),
    };
    measures(&rt, alloc, &rows, &wanted);
    has_count(&rt, alloc, &rows, 1, cells);
    has_count(&rt, alloc, &rows, 2, 0);
}

#[test]
fn a_copy_has_the_same_measures(rt: HostRuntime) {
    let plane = squared(&rt, rt.alloc(), &SPREAD);
    let copy = plane.copy().expect(&rt, "memory");
    same(&rt, &copy.population(), &4, &"copy");
    same(&rt, &copy.greatest(), &7, &"copy");
}
