use super::rules::Ageing;
use super::squares::{Cells, four_at, life, soup};
use super::{found, same};
use std::alloc::Global;
use std::process::Abort;
use test_rules::{Copying, Life};
use worlds::Next;

/// A glider, whose cells lie between (5, 4) and (7, 6), and after four generations a cell further right
/// and down.
const GLIDER: Cells = [
    0b0000_0000_0000_0000,
    0b0000_0000_0000_0000,
    0b0000_0000_0000_0000,
    0b0000_0000_0000_0000,
    0b0000_0010_0000_0000,
    0b0000_0001_0000_0000,
    0b0000_0111_0000_0000,
    0b0000_0000_0000_0000,
    0b0000_0000_0000_0000,
    0b0000_0000_0000_0000,
    0b0000_0000_0000_0000,
    0b0000_0000_0000_0000,
    0b0000_0000_0000_0000,
    0b0000_0000_0000_0000,
    0b0000_0000_0000_0000,
    0b0000_0000_0000_0000,
];

/// A blinker across the middle of the square, and a block in its lower right quadrant.
const STILL: Cells = [
    0b0000_0000_0000_0000,
    0b0000_0000_0000_0000,
    0b0000_0000_0000_0000,
    0b0000_0000_0000_0000,
    0b0000_0000_0000_0000,
    0b0000_0000_0000_0000,
    0b0000_0000_0000_0000,
    0b0000_0011_1000_0000,
    0b0000_0000_0000_0000,
    0b0000_0000_0000_0000,
    0b0000_0000_0110_0000,
    0b0000_0000_0110_0000,
    0b0000_0000_0000_0000,
    0b0000_0000_0000_0000,
    0b0000_0000_0000_0000,
    0b0000_0000_0000_0000,
];

/// Cells that look otherwise from each side.
const UNEVEN: Cells = [
    0b1000_0000_0000_0001,
    0b0100_0000_0000_0010,
    0b0000_0110_0000_0000,
    0b0000_0000_0011_1000,
    0b0001_0000_0000_0100,
    0b0000_1000_0100_0000,
    0b0010_0001_0000_1010,
    0b0000_0000_1000_0000,
    0b0110_0100_0010_0001,
    0b0000_0000_0001_0000,
    0b0001_1100_0000_0000,
    0b0000_0000_1010_0110,
    0b0100_0010_0000_0000,
    0b0000_1000_0001_1000,
    0b0010_0000_0100_0000,
    0b1000_0001_0000_0001,
];

/// One live cell.
const CORNER: Cells = [0x8000, 0, 0, 0, 0, 0, 0, 0, 0, 0, 0, 0, 0, 0, 0, 0];

const INSIDE: Cells = [0, 0x4000, 0, 0, 0, 0, 0, 0, 0, 0, 0, 0, 0, 0, 0, 0];

/// Stops the test where the blocks aren't those of the 8 by 8 cells of another square that begin at (x, y).
fn expect<R: Next>(
    rt: &impl Abort,
    alloc: Global,
    rule: &R,
    cells: &Cells,
    wanted: &Cells,
    x: usize,
    y: usize,
) {
    assert!(rt; x <= 8 && y <= 8);
    let found = found(rt, alloc, rule, cells);
    same(rt, &found, &Some(four_at(wanted, x, y)), cells);
}

#[test]
fn a_glider_moves_and_the_rest_stays(rt: HostRuntime) {
    let alloc = rt.alloc();
    expect(&rt, alloc, &Life, &GLIDER, &GLIDER, 3, 3);
    expect(&rt, alloc, &Life, &STILL, &STILL, 4, 4);
}

/// A cell that takes the state of one of the nine places, in the order of `Around`, moves the square.
#[test]
fn copies_move_the_square(rt: HostRuntime) {
    let alloc = rt.alloc();
    for (from, (x, y)) in [
        (4, 4),
        (4, 0),
        (8, 0),
        (8, 4),
        (8, 8),
        (4, 8),
        (0, 8),
        (0, 4),
        (0, 0),
    ]
    .into_iter()
    .enumerate()
    {
        expect(&rt, alloc, &Copying { from }, &UNEVEN, &UNEVEN, x, y);
    }
}

/// Stops the test where a soup isn't what single steps, cell by cell, make of it.
fn expect_as_plain(rt: &impl Abort, alloc: Global, seed: u64) {
    let cells = soup(seed);
    let later = life(&life(&life(&life(&cells))));
    expect(rt, alloc, &Life, &cells, &later, 4, 4);
}

#[test]
fn soups_are_as_cell_by_cell(rt: HostRuntime) {
    for seed in 0..40 {
        expect_as_plain(&rt, rt.alloc(), seed);
    }
}

/// A live cell gets the state 2, but the cells of the rim are looked at only as neighbours.
#[test]
fn gives_up_where_a_third_state_comes(rt: HostRuntime) {
    let alloc = rt.alloc();
    same(
        &rt,
        &found(&rt, alloc, &Ageing, &[0; 16]),
        &Some([0; 4]),
        &0,
    );
    same(&rt, &found(&rt, alloc, &Ageing, &CORNER), &Some([0; 4]), &1);
    same(&rt, &found(&rt, alloc, &Ageing, &INSIDE), &None, &2);
}
