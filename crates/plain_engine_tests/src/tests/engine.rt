use super::{expect_rows, plane_of, same};
use counted_engine::{Evolved, Report};
use plain_engine::evolve_plain;
use plane_core::{Next, NoStop, Stop};
use std::alloc::Global;
use std::process::Abort;
use step_engine::{EvolveFault, fits};
use test_planes::{Row, is_below};
use test_rules::{Copying, OneOfTwo, Star};

const CENTRE: usize = 0;

const WEST: usize = 7;

pub const ONE: &[Row] = &[(0, 0, 1)];

/// `evolve_plain` from the rows, once the rule and the generations are known to suit them.
pub fn evolved<R: Next, S: Stop>(
    rt: &impl Abort,
    alloc: Global,
    rule: &R,
    rows: &[Row],
    generations: u64,
    stop: &mut S,
) -> Result<Evolved, EvolveFault> {
    let plane = plane_of(rt, alloc, rows);
    assert!(rt; is_below(&plane, rule.states()), "a state isn't the rule's");
    assert!(rt; generations <= 1 << 60);
    assert!(rt; fits(&plane, generations));
    evolve_plain(alloc, rule, &plane, generations, stop, 0)
}

/// Stops the test where the plane some generations after the rows isn't the wanted one.
pub fn expect_later<R: Next>(
    rt: &impl Abort,
    alloc: Global,
    rule: &R,
    rows: &[Row],
    generations: u64,
    wanted: &[Row],
) {
    let answer = evolved(rt, alloc, rule, rows, generations, &mut NoStop);
    let later = answer.expect(rt, "a plane");
    let nothing = Report {
        squares: 0,
        fours: 0,
        base: 0,
    };
    same(rt, &later.report, &nothing, &generations);
    expect_rows(rt, alloc, &later.plane, wanted, "later");
}

#[test]
fn evolves_one_of_two(rt: HostRuntime) {
    let alloc = rt.alloc();
    expect_later(&rt, alloc, &OneOfTwo, ONE, 0, ONE);
    expect_later(&rt, alloc, &OneOfTwo, ONE, 1, &[(-1, 0, 1), (1, 0, 1)]);
    expect_later(&rt, alloc, &OneOfTwo, ONE, 2, &[(-2, 0, 1), (2, 0, 1)]);
    let four = [(-3, 0, 1), (-1, 0, 1), (1, 0, 1), (3, 0, 1)];
    expect_later(&rt, alloc, &OneOfTwo, ONE, 3, &four);
}

fn expect_count(rt: &impl Abort, alloc: Global, generations: u64, wanted: u128) {
    let answer = evolved(rt, alloc, &OneOfTwo, ONE, generations, &mut NoStop);
    let later = answer.expect(rt, "a plane");
    same(rt, &later.plane.population(), &wanted, &generations);
}

// A row of Pascal's triangle has as many odd numbers as 2 to the number of ones in its number.
#[test]
fn counts_the_odd_numbers_of_ten_rows(rt: HostRuntime) {
    let alloc = rt.alloc();
    expect_count(&rt, alloc, 0, 1);
    expect_count(&rt, alloc, 1, 2);
    expect_count(&rt, alloc, 2, 2);
    expect_count(&rt, alloc, 3, 4);
    expect_count(&rt, alloc, 4, 2);
    expect_count(&rt, alloc, 5, 4);
    expect_count(&rt, alloc, 6, 4);
    expect_count(&rt, alloc, 7, 8);
    expect_count(&rt, alloc, 8, 2);
    expect_count(&rt, alloc, 9, 4);
    expect_count(&rt, alloc, 10, 4);
}

#[test]
fn evolves_a_star(rt: HostRuntime) {
    let five = [(0, -1, 1), (-1, 0, 1), (0, 0, 1), (1, 0, 1), (0, 1, 1)];
    expect_later(&rt, rt.alloc(), &Star, ONE, 1, &five);
}

/// Stops the test where a state that its neighbour `from` copies doesn't go to (x, y).
fn expect_moved(rt: &impl Abort, alloc: Global, from: usize, x: i64, y: i64) {
    let rule = Copying { from };
    expect_later(rt, alloc, &rule, &[(10, 20, 7)], 1, &[(x, y, 7)]);
}

#[test]
fn looks_at_each_place(rt: HostRuntime) {
    let alloc = rt.alloc();
    // What comes from the north goes south, and so on round.
    expect_moved(&rt, alloc, 0, 10, 20);
    expect_moved(&rt, alloc, 1, 10, 21);
    expect_moved(&rt, alloc, 2, 9, 21);
    expect_moved(&rt, alloc, 3, 9, 20);
    expect_moved(&rt, alloc, 4, 9, 19);
    expect_moved(&rt, alloc, 5, 10, 19);
    expect_moved(&rt, alloc, 6, 11, 19);
    expect_moved(&rt, alloc, 7, 11, 20);
    expect_moved(&rt, alloc, 8, 11, 21);
}

#[test]
fn outgrows_its_square(rt: HostRuntime) {
    let west = Copying { from: WEST };
    expect_later(&rt, rt.alloc(), &west, ONE, 40, &[(40, 0, 1)]);
}

#[test]
fn stays_still_for_very_long(rt: HostRuntime) {
    let rule = Copying { from: CENTRE };
    let two = [(9, -9, 255), (0, 0, 1)];
    expect_later(&rt, rt.alloc(), &rule, &[], 1 << 60, &[]);
    expect_later(&rt, rt.alloc(), &rule, &two, 1 << 60, &two);
}
