use super::same;
use bumpalo::Bump;
use hash_engine::{Asking, Memo, search};
use square_table::SquareTable;
use std::alloc::Global;
use std::process::Abort;
use test_rules::Life;
use test_squares::{GLIDER, Place, is_below, is_number, square_of};
use worlds::NoStop;

/// Stops the test where the cells in the middle of a square of level 5 aren't the wanted ones so
/// many generations later.
fn expect_sought(
    rt: &impl Abort,
    alloc: Global,
    cells: &[Place],
    generations: u64,
    wanted: &[Place],
) {
    let arena = Bump::new(alloc);
    let mut table = SquareTable::new(alloc, &arena, 100_000).expect(rt, "memory");
    let number = square_of(&mut table, 5, 0, 0, cells).expect(rt, "room");
    let later = square_of(&mut table, 4, 8, 8, wanted).expect(rt, "room");
    table.forget_notes();
    assert!(rt; is_number(&table, 5, number));
    assert!(rt; is_below(&table, 5, number, 2));
    let root = table.square(5, number).expect(rt, "memory");
    let mut memo = Memo::nothing(alloc);
    let mut rule = Asking::new(&Life);
    let found = search(
        &mut table,
        &mut memo,
        &mut rule,
        root,
        generations,
        &mut NoStop,
    );
    let found = found.expect(rt, "room");
    same(rt, &found.number(), &later, &generations);
    same(rt, &found.level(), &4, &generations);
}

#[test]
fn a_glider_is_sought(rt: HostRuntime) {
    let alloc = rt.alloc();
    for generations in 0..9usize {
        expect_sought(
            &rt,
            alloc,
            &GLIDER[0],
            generations as u64,
            &GLIDER[generations],
        );
    }
}
