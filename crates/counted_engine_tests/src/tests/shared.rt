use super::{ONE, expect_rows, plane_of, same};
use counted_engine::{Evolved, Report, evolve};
use plain_engine::evolve_plain;
use plane_core::{Bounds, Next, NoStop, Plane, Stop};
use std::alloc::Global;
use std::process::Abort;
use step_engine::{EvolveFault, fits};
use test_planes::{Row, is_below};
use test_rules::{Copying, Countdown, OneOfTwo, OnlyNeighbour, Star};

const EAST: usize = 3;

const FAR: u64 = 1 << 60;

const SOME_SQUARES: u32 = 100_000;

/// `evolve` from the rows, once the rule and the generations are known to suit them.
fn shared<R: Next, S: Stop>(
    rt: &impl Abort,
    alloc: Global,
    rule: &R,
    rows: &[Row],
    generations: u64,
    stop: &mut S,
    limit: u32,
) -> Result<Evolved, EvolveFault> {
    let plane = plane_of(rt, alloc, rows);
    assert!(rt; is_below(&plane, rule.states()), "a state isn't the rule's");
    assert!(rt; generations <= 1 << 60);
    assert!(rt; fits(&plane, generations));
    evolve(alloc, rule, &plane, generations, stop, limit)
}

/// The plane a generation later, by the plain engine.
fn stepped<R: Next>(rt: &impl Abort, alloc: Global, rule: &R, plane: &Plane) -> Plane {
    assert!(rt; is_below(plane, rule.states()), "a state isn't the rule's");
    assert!(rt; fits(plane, 1));
    let later = evolve_plain(alloc, rule, plane, 1, &mut NoStop, 0);
    later.expect(rt, "a plane").plane
}

/// Stops the test where `evolve` doesn't give the plane.
fn expect_plane<R: Next>(
    rt: &impl Abort,
    alloc: Global,
    rule: &R,
    rows: &[Row],
    generations: u64,
    wanted: &Plane,
) {
    let answer = shared(
        rt,
        alloc,
        rule,
        rows,
        generations,
        &mut NoStop,
        SOME_SQUARES,
    );
    let later = answer.expect(rt, "a plane").plane;
    assert!(rt;
        later.equals(wanted),
        "{generations}: the engines don't agree"
    );
}

/// Stops the test where the two engines don't agree at some generation from 0 to 40.
fn expect_alike<R: Next>(rt: &impl Abort, alloc: Global, rule: &R, rows: &[Row]) {
    let mut plain = plane_of(rt, alloc, rows);
    for generations in 0..=40 {
        expect_plane(rt, alloc, rule, rows, generations, &plain);
        plain = stepped(rt, alloc, rule, &plain);
    }
}

#[test]
fn agrees_with_the_plain_engine_on_a_row(rt: HostRuntime) {
    let alloc = rt.alloc();
    expect_alike(&rt, alloc, &OneOfTwo, ONE);
    expect_alike(&rt, alloc, &OneOfTwo, &[(0, 0, 1), (1, 0, 1)]);
}

#[test]
fn agrees_with_the_plain_engine_on_a_star(rt: HostRuntime) {
    expect_alike(&rt, rt.alloc(), &Star, ONE);
}

#[test]
fn agrees_with_the_plain_engine_on_what_moves(rt: HostRuntime) {
    let east = Copying { from: EAST };
    expect_alike(&rt, rt.alloc(), &east, &[(9, -9, 255), (-3, 0, 1)]);
}

#[test]
fn agrees_with_the_plain_engine_on_a_table_with_a_variable(rt: HostRuntime) {
    let alloc = rt.alloc();
    expect_alike(&rt, alloc, &OnlyNeighbour, &[(0, 0, 2)]);
    expect_alike(&rt, alloc, &OnlyNeighbour, &[(-3, 1, 1), (4, 0, 2)]);
}

#[test]
fn evolves_one_of_two(rt: HostRuntime) {
    let alloc = rt.alloc();
    let plane = plane_of(&rt, alloc, ONE);
    assert!(rt; is_below(&plane, 2));
    assert!(rt; fits(&plane, 1));
    let later = evolve(alloc, &OneOfTwo, &plane, 1, &mut NoStop, 1000).expect(&rt, "a plane");
    expect_rows(&rt, alloc, &later.plane, &[(-1, 0, 1), (1, 0, 1)], "later");
}

/// Stops the test where other cells are live than two in the row 0, at its ends from left to right.
fn expect_two(rt: &impl Abort, alloc: Global, generations: u64, left: i64, right: i64) {
    let answer = shared(
        rt,
        alloc,
        &OneOfTwo,
        ONE,
        generations,
        &mut NoStop,
        SOME_SQUARES,
    );
    let plane = answer.expect(rt, "a plane").plane;
    same(rt, &plane.population(), &2, &generations);
    let bounds = Bounds {
        left,
        top: 0,
        right,
        bottom: 0,
    };
    same(rt, &plane.bounds(), &Some(bounds), &generations);
}

#[test]
fn goes_as_far_as_generations_go(rt: HostRuntime) {
    let alloc = rt.alloc();
    expect_two(&rt, alloc, 1 << 20, -(1 << 20), 1 << 20);
    expect_two(&rt, alloc, FAR, -(1 << 60), 1 << 60);
}

fn expect_fault<S: Stop>(
    rt: &impl Abort,
    alloc: Global,
    stop: &mut S,
    limit: u32,
    wanted: EvolveFault,
) {
    let answer = shared(rt, alloc, &OneOfTwo, ONE, FAR, stop, limit);
    same(rt, &answer.err(), &Some(wanted), &limit);
}

#[test]
fn refuses_for_want_of_room_or_where_it_is_stopped(rt: HostRuntime) {
    let alloc = rt.alloc();
    expect_fault(&rt, alloc, &mut NoStop, 64, EvolveFault::NoRoom);
    expect_fault(&rt, alloc, &mut NoStop, 0, EvolveFault::NoRoom);
    let mut stop = Countdown { left: 1 };
    expect_fault(&rt, alloc, &mut stop, SOME_SQUARES, EvolveFault::Stopped);
}

/// Stops the test where the report doesn't say how many squares there were.
fn expect_squares(rt: &impl Abort, alloc: Global, generations: u64) {
    let answer = shared(
        rt,
        alloc,
        &OneOfTwo,
        ONE,
        generations,
        &mut NoStop,
        SOME_SQUARES,
    );
    let report = answer.expect(rt, "a plane").report;
    let few = report.base <= report.fours && report.fours <= report.squares;
    assert!(rt; few && 0 < report.base, "{generations}: {report:?}");
    let enough = shared(
        rt,
        alloc,
        &OneOfTwo,
        ONE,
        generations,
        &mut NoStop,
        report.squares,
    );
    assert!(rt; enough.is_ok(), "as many squares as it reports are enough");
    let less = report.squares.saturating_sub(1);
    let wanting = shared(rt, alloc, &OneOfTwo, ONE, generations, &mut NoStop, less);
    same(rt, &wanting.err(), &Some(EvolveFault::NoRoom), &generations);
}

#[test]
fn reports_how_many_squares_it_took(rt: HostRuntime) {
    let alloc = rt.alloc();
    expect_squares(&rt, alloc, 3);
    expect_squares(&rt, alloc, 1 << 20);
}

#[test]
fn asks_the_stop_for_one_generation(rt: HostRuntime) {
    let alloc = rt.alloc();
    let mut stop = Countdown { left: 1 };
    let answer = shared(&rt, alloc, &Star, ONE, 1, &mut stop, SOME_SQUARES);
    same(&rt, &answer.err(), &Some(EvolveFault::Stopped), &"Star");
    same(&rt, &stop.left, &0, &"Star");
}

/// Stops the test where the report of the way from the rows isn't the wanted one.
fn expect_report<R: Next>(
    rt: &impl Abort,
    alloc: Global,
    rule: &R,
    rows: &[Row],
    generations: u64,
    wanted: Report,
) {
    let answer = shared(
        rt,
        alloc,
        rule,
        rows,
        generations,
        &mut NoStop,
        SOME_SQUARES,
    );
    let report = answer.expect(rt, "a plane").report;
    same(rt, &report, &wanted, &generations);
}

const fn report_of(squares: u32, fours: u32, base: u32) -> Report {
    Report {
        squares,
        fours,
        base,
    }
}

// The different squares on the way, counted apart from the engine. With no generation the cell's square
// of 4 by 4 cells, two different quadrants of it and its middle are all.
#[test]
fn reports_exactly_what_was_made(rt: HostRuntime) {
    let alloc = rt.alloc();
    expect_report(&rt, alloc, &OneOfTwo, ONE, 0, report_of(4, 1, 0));
    expect_report(&rt, alloc, &OneOfTwo, ONE, 1, report_of(16, 10, 5));
    expect_report(&rt, alloc, &OneOfTwo, ONE, 2, report_of(26, 11, 11));
    expect_report(&rt, alloc, &OneOfTwo, ONE, 3, report_of(28, 12, 11));
    expect_report(&rt, alloc, &Star, ONE, 0, report_of(4, 1, 0));
    expect_report(&rt, alloc, &Star, ONE, 1, report_of(18, 10, 5));
    expect_report(&rt, alloc, &Star, ONE, 2, report_of(37, 17, 13));
    expect_report(&rt, alloc, &Star, &[], 0, report_of(2, 1, 0));
    expect_report(&rt, alloc, &Star, &[], 1, report_of(2, 1, 1));
}
