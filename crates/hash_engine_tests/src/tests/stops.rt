use super::same;
use bumpalo::Bump;
use hash_engine::{Asking, Memo, ResultFault, search};
use square_table::{SquareTable, TableFault};
use std::alloc::Global;
use std::process::Abort;
use test_rules::{Countdown, Life};
use test_squares::{Place, is_below, is_number, square_of};

const ROW: &[Place] = &[(14, 16), (15, 16), (16, 16), (17, 16), (18, 16)];

/// How eight generations of a row of five cells end, in a table with so much room, under a stop that
/// says yes at a poll, and how many polls are left before it.
fn expect_end(
    rt: &impl Abort,
    alloc: Global,
    limit: u32,
    left: u64,
    wanted: Option<ResultFault>,
    stays: u64,
) {
    let arena = Bump::new(alloc);
    let mut table = SquareTable::new(alloc, &arena, limit.min(100_000)).expect(rt, "memory");
    let number = square_of(&mut table, 5, 0, 0, ROW).expect(rt, "room");
    table.forget_notes();
    assert!(rt; is_number(&table, 5, number));
    assert!(rt; is_below(&table, 5, number, 2));
    let root = table.square(5, number).expect(rt, "memory");
    let mut memo = Memo::nothing(alloc);
    let mut rule = Asking::new(&Life);
    let mut stop = Countdown { left };
    let ended = search(&mut table, &mut memo, &mut rule, root, 8, &mut stop);
    same(rt, &ended.err(), &wanted, &limit);
    same(rt, &stop.left, &stays, &left);
}

#[test]
fn a_stop_ends_it(rt: HostRuntime) {
    let alloc = rt.alloc();
    expect_end(&rt, alloc, 100_000, 1, Some(ResultFault::Stopped), 0);
    expect_end(&rt, alloc, 100_000, 5, Some(ResultFault::Stopped), 0);
}

#[test]
fn a_full_table_ends_it(rt: HostRuntime) {
    let alloc = rt.alloc();
    let no_room = ResultFault::Table(TableFault::NoRoom);
    expect_end(&rt, alloc, 24, 0, Some(no_room), 0);
    expect_end(&rt, alloc, 64, 0, Some(no_room), 0);
}
