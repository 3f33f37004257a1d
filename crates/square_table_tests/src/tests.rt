use basics::Refusal;
use bumpalo::Bump;
use square_table::{SquareTable, TableFault};
use std::process::Abort;

#[test]
fn equal_squares_have_equal_numbers(rt: HostRuntime) {
    let arena = Bump::new(rt.alloc());
    let mut table = SquareTable::new(rt.alloc(), &arena, 64).expect(&rt, "memory");
    let live = table.cell(1);
    assert_eq!(&rt; live.number(), 1);
    let first = table.join([live; 4]).expect(&rt, "memory");
    assert_eq!(&rt; first.number(), 256);
    assert_eq!(&rt; first.level(), 1);
    let again = table.join([live; 4]).expect(&rt, "memory");
    assert_eq!(&rt; again.number(), 256);
    assert_eq!(&rt; table.len(), 1);
}

#[test]
fn empty_squares_of_each_level_are_shared(rt: HostRuntime) {
    let arena = Bump::new(rt.alloc());
    let mut table = SquareTable::new(rt.alloc(), &arena, 64).expect(&rt, "memory");
    let large = table.blank(63).expect(&rt, "memory");
    assert_eq!(&rt; large.number(), 256 + 62);
    assert_eq!(&rt; large.level(), 63);
    let small = table.blank(3).expect(&rt, "memory");
    assert_eq!(&rt; small.number(), 258);
    assert_eq!(&rt; table.len(), 63);
}

#[test]
fn room_for_more_squares_changes_none(rt: HostRuntime) {
    let arena = Bump::new(rt.alloc());
    let mut table = SquareTable::new(rt.alloc(), &arena, 64).expect(&rt, "memory");
    let small = table.blank(3).expect(&rt, "memory");
    table.reserve(5000);
    assert_eq!(&rt; table.len(), 3);
    let again = table.blank(4).expect(&rt, "memory");
    assert_eq!(&rt; small.number(), 258);
    assert_eq!(&rt; again.number(), 259);
}

// Joins quadrants whose square has the number 257, by a guess.
fn join_by(rt: &impl Abort, table: &mut SquareTable<'_>, guess: u32) {
    let number = table.join_guessed([0, 1, 1, 0], guess).expect(rt, "room");
    assert!(rt; number == 257);
}

#[test]
fn a_guess_changes_no_number(rt: HostRuntime) {
    let arena = Bump::new(rt.alloc());
    let mut table = SquareTable::new(rt.alloc(), &arena, 64).expect(&rt, "memory");
    assert_eq!(&rt; table.join_numbers([1, 0, 0, 1]).expect(&rt, "room"), 256);
    join_by(&rt, &mut table, 0);
    for guess in [0, 1, 255, 256, 257, 258, 4_294_967_295] {
        join_by(&rt, &mut table, guess);
    }
    assert_eq!(&rt; table.guess([0, 1, 1, 0]), 257);
    assert_eq!(&rt; table.len(), 2);
}

#[test]
fn a_full_table_has_no_room(rt: HostRuntime) {
    let arena = Bump::new(rt.alloc());
    let mut table = SquareTable::new(rt.alloc(), &arena, 2).expect(&rt, "memory");
    assert!(&rt; table.blank(2).is_ok());
    assert!(&rt; matches!(&table.blank(3), Err(TableFault::NoRoom)));
    assert!(&rt; table.blank(2).is_ok());
    assert_eq!(&rt; table.len(), 2);
}

#[test]
fn a_cleared_table_begins_anew(rt: HostRuntime) {
    let arena = Bump::new(rt.alloc());
    let mut table = SquareTable::new(rt.alloc(), &arena, 2).expect(&rt, "memory");
    assert!(&rt; table.blank(2).is_ok());
    table.clear();
    assert_eq!(&rt; table.len(), 0);
    assert_eq!(&rt; table.join_numbers([1, 0, 0, 1]).expect(&rt, "room"), 256);
    assert_eq!(&rt; table.join_numbers([0, 0, 0, 0]).expect(&rt, "room"), 257);
    assert!(&rt; matches!(&table.join_numbers([0, 1, 1, 0]), Err(TableFault::NoRoom)));
}

#[test]
fn notes_are_each_of_one_square(rt: HostRuntime) {
    let arena = Bump::new(rt.alloc());
    let mut table = SquareTable::new(rt.alloc(), &arena, 3).expect(&rt, "memory");
    assert_eq!(&rt; table.join_numbers([255, 0, 0, 1]).expect(&rt, "room"), 256);
    assert_eq!(&rt; table.join_numbers([0, 0, 0, 255]).expect(&rt, "room"), 257);
    assert_eq!(&rt; table.noted(256), 0);
    table.note(256, 257);
    assert_eq!(&rt; table.noted(256), 257);
    assert_eq!(&rt; table.noted(257), 0);
    assert_eq!(&rt; table.quadrants(256), [255, 0, 0, 1]);
    assert_eq!(&rt; table.join_numbers([255, 0, 0, 1]).expect(&rt, "room"), 256);
    assert_eq!(&rt;
        table.join_numbers([256, 256, 257, 257]).expect(&rt, "room"),
        258
    );
    assert_eq!(&rt; table.noted(258), 0);
    table.note(258, 258);
    table.note(256, 1);
    assert_eq!(&rt; table.noted(256), 1);
    assert_eq!(&rt; table.noted(258), 258);
    assert_eq!(&rt; table.quadrants(258), [256, 256, 257, 257]);
    table.forget_notes();
    assert_eq!(&rt; table.noted(256), 0);
    assert_eq!(&rt; table.noted(258), 0);
    assert_eq!(&rt; table.quadrants(258), [256, 256, 257, 257]);
}

#[test]
fn a_cleared_table_has_no_notes(rt: HostRuntime) {
    let arena = Bump::new(rt.alloc());
    let mut table = SquareTable::new(rt.alloc(), &arena, 2).expect(&rt, "memory");
    assert_eq!(&rt; table.join_numbers([1, 0, 0, 1]).expect(&rt, "room"), 256);
    table.note(256, 256);
    table.clear();
    assert_eq!(&rt; table.join_numbers([1, 0, 0, 1]).expect(&rt, "room"), 256);
    assert_eq!(&rt; table.noted(256), 0);
}

// The largest number has 25 bits in a row, and no square has it.
#[test]
fn a_row_has_no_room_for_a_number_that_no_square_has(rt: HostRuntime) {
    let arena = Bump::new(rt.alloc());
    let mut table = SquareTable::new(rt.alloc(), &arena, 2).expect(&rt, "memory");
    for number in [33_554_432, 4_294_967_295] {
        assert!(&rt;
            matches!(
                &table.join_numbers([0, number, 0, 0]),
                Err(TableFault::NoMemory)
            )
        );
    }
    assert_eq!(&rt; table.len(), 0);
    assert_eq!(&rt;
        table
            .join_numbers([0, 33_554_431, 0, 0])
            .expect(&rt, "room"),
        256
    );
    assert_eq!(&rt; table.quadrants(256), [0, 33_554_431, 0, 0]);
}

#[test]
fn faults_have_numbers_and_names(rt: HostRuntime) {
    assert_eq!(&rt; TableFault::NoRoom.reason().number, 71);
    assert_eq!(&rt; TableFault::NoRoom.reason().name, "NoRoom");
    assert_eq!(&rt; TableFault::NoMemory.reason().number, 70);
    assert_eq!(&rt; TableFault::NoMemory.reason().name, "NoMemory");
}
