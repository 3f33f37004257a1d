//! Patches laid on squares of a table.
ghost use Rattle.std.specs.Prelude.{◌≡◌};
ghost use Rattle.square_table.specs.Squares.{IsHeld, level_of};

use bumpalo::Bump;
use square_patches::lay;
use square_table::{Square, SquareTable, TableFault};
use square_tree::Patch;
use std::alloc::Global;
use std::process::Abort;
use test_planes::plane_of;

// A table with room for so many squares.
fn table<'a>(rt: &impl Abort, alloc: Global, arena: &'a Bump, limit: u16) -> SquareTable<'a> {
    SquareTable::new(alloc, arena, u32::from(limit)).expect(rt, "memory")
}

// The square of level 1 with the rows 1, 2 and 3, 4.
fn block<'a>(rt: &impl Abort, table: &mut SquareTable<'a>) -> Square<'a>
    ensures held { IsHeld table.new result }
    ensures level { level_of result ≡ 1 }
{
    let four = [table.cell(1), table.cell(2), table.cell(3), table.cell(4)];
    let square = table.join(four).expect(rt, "room");
    assert!(rt; square.level() == 1);
    square
}

// The patch of the level 1 with the rows 5, 6 and 7, 8.
fn block_patch(rt: &impl Abort, alloc: Global) -> Patch<Global>
    ensures { result.level ≡ 1 }
{
    let mut patch = Patch::new(alloc, 1);
    patch.set(-1, -1, 5).expect(rt, "memory");
    patch.set(0, -1, 6).expect(rt, "memory");
    patch.set(-1, 0, 7).expect(rt, "memory");
    patch.set(0, 0, 8).expect(rt, "memory");
    patch
}

#[test]
fn a_patch_that_keeps_all_leaves_the_square(rt: HostRuntime) {
    let alloc = rt.alloc();
    let arena = Bump::new(alloc);
    let mut table = table(&rt, alloc, &arena, 64);
    let square = block(&rt, &mut table);
    let laid = lay(&mut table, square, &Patch::new(alloc, 0)).expect(&rt, "memory");
    assert_eq!(&rt; laid.number(), square.number());
    let laid = lay(&mut table, laid, &Patch::new(alloc, 1)).expect(&rt, "memory");
    assert_eq!(&rt; laid.number(), square.number());
    assert_eq!(&rt; table.len(), 1);
}

#[test]
fn a_patch_wins_where_it_says_a_state(rt: HostRuntime) {
    let alloc = rt.alloc();
    let arena = Bump::new(alloc);
    let mut table = table(&rt, alloc, &arena, 64);
    let square = block(&rt, &mut table);
    let mut patch = Patch::new(alloc, 1);
    patch.set(0, -1, 9).expect(&rt, "memory");
    patch.set(-1, 0, 0).expect(&rt, "memory");
    let laid = lay(&mut table, square, &patch).expect(&rt, "memory");
    let wanted = table.join_numbers([1, 9, 0, 4]).expect(&rt, "room");
    assert_eq!(&rt; laid.number(), wanted);
    assert_eq!(&rt; laid.level(), 1);
}

#[test]
fn the_last_state_of_a_cell_is_laid(rt: HostRuntime) {
    let alloc = rt.alloc();
    let arena = Bump::new(alloc);
    let mut table = table(&rt, alloc, &arena, 64);
    let square = block(&rt, &mut table);
    let mut patch = Patch::new(alloc, 1);
    patch.set(0, 0, 9).expect(&rt, "memory");
    patch.set(0, 0, 10).expect(&rt, "memory");
    let laid = lay(&mut table, square, &patch).expect(&rt, "memory");
    let wanted = table.join_numbers([1, 2, 3, 10]).expect(&rt, "room");
    assert_eq!(&rt; laid.number(), wanted);
}

#[test]
fn the_patch_of_one_cell_lies_at_the_middle(rt: HostRuntime) {
    let alloc = rt.alloc();
    let arena = Bump::new(alloc);
    let mut table = table(&rt, alloc, &arena, 64);
    let mut patch = Patch::new(alloc, 0);
    patch.set(0, 0, 9).expect(&rt, "memory");
    let cell = table.cell(3);
    let laid = lay(&mut table, cell, &patch).expect(&rt, "memory");
    assert_eq!(&rt; laid.number(), 9);
    let square = block(&rt, &mut table);
    let laid = lay(&mut table, square, &patch).expect(&rt, "memory");
    let wanted = table.join_numbers([1, 2, 3, 9]).expect(&rt, "room");
    assert_eq!(&rt; laid.number(), wanted);
}

#[test]
fn a_smaller_patch_lies_round_the_middle(rt: HostRuntime) {
    let alloc = rt.alloc();
    let arena = Bump::new(alloc);
    let mut table = table(&rt, alloc, &arena, 64);
    let square = table.blank(3).expect(&rt, "room");
    let laid = lay(&mut table, square, &block_patch(&rt, alloc)).expect(&rt, "memory");
    let none = table.join_numbers([0; 4]).expect(&rt, "room");
    let nw = table.join_numbers([0, 0, 0, 5]).expect(&rt, "room");
    let ne = table.join_numbers([0, 0, 6, 0]).expect(&rt, "room");
    let sw = table.join_numbers([0, 7, 0, 0]).expect(&rt, "room");
    let se = table.join_numbers([8, 0, 0, 0]).expect(&rt, "room");
    let nw = table
        .join_numbers([none, none, none, nw])
        .expect(&rt, "room");
    let ne = table
        .join_numbers([none, none, ne, none])
        .expect(&rt, "room");
    let sw = table
        .join_numbers([none, sw, none, none])
        .expect(&rt, "room");
    let se = table
        .join_numbers([se, none, none, none])
        .expect(&rt, "room");
    let wanted = table.join_numbers([nw, ne, sw, se]).expect(&rt, "room");
    assert_eq!(&rt; laid.number(), wanted);
    assert_eq!(&rt; laid.level(), 3);
}

#[test]
fn a_full_table_leaves_what_was_there(rt: HostRuntime) {
    let alloc = rt.alloc();
    let arena = Bump::new(alloc);
    let mut table = table(&rt, alloc, &arena, 1);
    let square = block(&rt, &mut table);
    let patch = block_patch(&rt, alloc);
    assert!(&rt; matches!(&lay(&mut table, square, &patch), Err(TableFault::NoRoom)));
    assert_eq!(&rt; table.len(), 1);
    let again = block(&rt, &mut table);
    assert_eq!(&rt; again.number(), square.number());
    let again = lay(&mut table, again, &Patch::new(alloc, 1)).expect(&rt, "memory");
    assert_eq!(&rt; again.number(), square.number());
    assert_eq!(&rt;
        table.join_numbers([1, 2, 3, 4]).expect(&rt, "room"),
        square.number()
    );
}

#[test]
fn what_is_laid_on_a_blank_square_is_what_is_loaded(rt: HostRuntime) {
    let alloc = rt.alloc();
    let arena = Bump::new(alloc);
    let mut table = SquareTable::new(alloc, &arena, 64).expect(&rt, "memory");
    let mut patch = Patch::new(alloc, 3);
    patch.set(-3, 2, 255).expect(&rt, "memory");
    patch.set(3, 2, 254).expect(&rt, "memory");
    let blank = table.blank(3).expect(&rt, "room");
    let laid = lay(&mut table, blank, &patch).expect(&rt, "room");
    let plane = plane_of(alloc, &[(-3, 2, 255), (3, 2, 254)]).expect(&rt, "memory");
    let loaded = table.load(&plane).expect(&rt, "room");
    assert_eq!(&rt; laid.number(), loaded.number());
    assert_eq!(&rt; laid.level(), loaded.level());
}
