use super::same;
use bumpalo::Bump;
use counted_engine::{Asking, result};
use plane_core::NoStop;
use square_table::SquareTable;
use std::alloc::Global;
use std::process::Abort;
use test_rules::Life;
use test_squares::{GLIDER, Place, is_below, is_number, square_of};

// A blinker's two shapes.
const LYING: &[Place] = &[(15, 16), (16, 16), (17, 16)];

const UPRIGHT: &[Place] = &[(16, 15), (16, 16), (16, 17)];

const BLOCK: &[Place] = &[(9, 9), (10, 9), (9, 10), (10, 10)];

// A cell that leaves the middle's sight.
const CORNER: &[Place] = &[(0, 0), (31, 31)];

/// Stops the test where the cells in the middle of a square of level 5 aren't the wanted ones so
/// many generations later.
fn expect_later(
    rt: &impl Abort,
    alloc: Global,
    cells: &[Place],
    generations: u64,
    wanted: &[Place],
) {
    let arena = Bump::new(alloc);
    let mut table = SquareTable::new(alloc, &arena, 100_000).expect(rt, "memory");
    let number = square_of(&mut table, 5, 0, 0, cells).expect(rt, "room");
    let later = square_of(&mut table, 4, 8, 8, wanted).expect(rt, "room");
    assert!(rt; is_number(&table, 5, number));
    assert!(rt; is_below(&table, 5, number, 2));
    let root = table.square(5, number).expect(rt, "memory");
    let mut rule = Asking::new(&Life);
    let found = result(alloc, &mut table, &mut rule, root, generations, &mut NoStop);
    let found = found.expect(rt, "room");
    same(rt, &found.square.number(), &later, &generations);
    same(rt, &found.square.level(), &4, &generations);
}

#[test]
fn a_glider_glides(rt: HostRuntime) {
    let alloc = rt.alloc();
    for generations in 0..9usize {
        expect_later(
            &rt,
            alloc,
            &GLIDER[0],
            generations as u64,
            &GLIDER[generations],
        );
    }
}

#[test]
fn a_blinker_blinks(rt: HostRuntime) {
    let alloc = rt.alloc();
    expect_later(&rt, alloc, LYING, 0, LYING);
    expect_later(&rt, alloc, LYING, 1, UPRIGHT);
    expect_later(&rt, alloc, LYING, 2, LYING);
    expect_later(&rt, alloc, LYING, 3, UPRIGHT);
    expect_later(&rt, alloc, UPRIGHT, 5, LYING);
    expect_later(&rt, alloc, UPRIGHT, 8, UPRIGHT);
}

#[test]
fn a_block_stays(rt: HostRuntime) {
    let alloc = rt.alloc();
    expect_later(&rt, alloc, BLOCK, 1, BLOCK);
    expect_later(&rt, alloc, BLOCK, 7, BLOCK);
    expect_later(&rt, alloc, BLOCK, 8, BLOCK);
    expect_later(&rt, alloc, CORNER, 8, &[]);
}

#[test]
fn the_empty_plane_stays_empty(rt: HostRuntime) {
    let alloc = rt.alloc();
    let arena = Bump::new(alloc);
    let mut table = SquareTable::new(alloc, &arena, 1000).expect(&rt, "memory");
    let root = table.blank(63).expect(&rt, "room");
    let mut rule = Asking::new(&Life);
    let found = result(alloc, &mut table, &mut rule, root, 1 << 60, &mut NoStop);
    let found = found.expect(&rt, "room");
    let wanted = table.blank(62).expect(&rt, "room");
    same(
        &rt,
        &found.square.number(),
        &wanted.number(),
        &"an empty square",
    );
}
