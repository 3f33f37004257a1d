ghost use Rattle.std.specs.Prelude.{◌≡◌, ◌≤◌, ◌^◌};

use super::same;
use square_tree::{Patch, PatchTree};
use std::alloc::Global;
use std::process::Abort;

// Stops the test where a patch of the level holds another column than those from `first` to `last`.
fn holds_columns(rt: &impl Abort, alloc: Global, level: u8, first: i64, last: i64)
    requires { level ≤ 62 }
{
    let patch = Patch::new(alloc, level);
    let (before, behind) = (first.wrapping_sub(1), last.wrapping_add(1));
    same(rt, &patch.holds(before, 0), &false, &(level, before));
    same(rt, &patch.holds(first, 0), &true, &(level, first));
    same(rt, &patch.holds(last, 0), &true, &(level, last));
    same(rt, &patch.holds(behind, 0), &false, &(level, behind));
}

// Stops the test where a patch of the level holds another row than those from `first` to `last`.
fn holds_rows(rt: &impl Abort, alloc: Global, level: u8, first: i64, last: i64)
    requires { level ≤ 62 }
{
    let patch = Patch::new(alloc, level);
    let (before, behind) = (first.wrapping_sub(1), last.wrapping_add(1));
    same(rt, &patch.holds(0, before), &false, &(level, before));
    same(rt, &patch.holds(0, first), &true, &(level, first));
    same(rt, &patch.holds(0, last), &true, &(level, last));
    same(rt, &patch.holds(0, behind), &false, &(level, behind));
}

#[test]
fn a_square_ends_at_its_edges(rt: HostRuntime) {
    let alloc = rt.alloc();
    holds_columns(&rt, alloc, 0, 0, 0);
    holds_columns(&rt, alloc, 1, -1, 0);
    holds_columns(&rt, alloc, 4, -8, 7);
    holds_columns(&rt, alloc, 62, -(1 << 61), (1 << 61) - 1);
    holds_rows(&rt, alloc, 0, 0, 0);
    holds_rows(&rt, alloc, 1, -1, 0);
    holds_rows(&rt, alloc, 4, -8, 7);
    holds_rows(&rt, alloc, 62, -(1 << 61), (1 << 61) - 1);
}

// A patch of the level 1 whose rows are 1, 2 and 3, 4.
fn block(rt: &impl Abort, alloc: Global) -> Patch<Global>
    ensures { result.level ≡ 1 }
{
    let mut patch = Patch::new(alloc, 1);
    patch.set(-1, -1, 1).expect(rt, "memory");
    patch.set(0, -1, 2).expect(rt, "memory");
    patch.set(-1, 0, 3).expect(rt, "memory");
    patch.set(0, 0, 4).expect(rt, "memory");
    patch
}

#[test]
fn a_window_goes_row_by_row(rt: HostRuntime) {
    let patch = block(&rt, rt.alloc());
    let all = patch.window(-1, -1, 2, 2).expect(&rt, "memory");
    same(&rt, &all.as_slice(), &[1u8, 2, 3, 4].as_slice(), &"all");
    let column = patch.window(0, -1, 1, 2).expect(&rt, "memory");
    same(&rt, &column.as_slice(), &[2u8, 4].as_slice(), &"a column");
    let nothing = patch.window(0, 0, 0, 1).expect(&rt, "memory");
    same(&rt, &nothing.len(), &0, &"no column");
}

// Lays the block on an empty patch of the level, and stops the test where it isn't in its middle.
fn lays_block(rt: &impl Abort, alloc: Global, level: u8)
    requires level { (1 ≤ level) × (level ≤ 62) }
    requires room { 4 ≤ 2 ^ level }
{
    let mut patch = Patch::new(alloc, level);
    patch.lay(&block(rt, alloc)).expect(rt, "memory");
    let window = patch.window(-2, -2, 4, 3).expect(rt, "memory");
    let wanted = [0u8, 0, 0, 0, 0, 1, 2, 0, 0, 3, 4, 0];
    same(rt, &window.as_slice(), &wanted.as_slice(), &level);
    same(rt, &patch.get(-2, -1), &None, &level);
}

#[test]
fn a_smaller_patch_is_laid_in_the_middle(rt: HostRuntime) {
    lays_block(&rt, rt.alloc(), 2);
    lays_block(&rt, rt.alloc(), 7);
    lays_block(&rt, rt.alloc(), 62);
}

#[test]
fn a_single_cell_is_laid_on_its_place(rt: HostRuntime) {
    let mut cell = Patch::new(rt.alloc(), 0);
    cell.set(0, 0, 9).expect(&rt, "memory");
    let mut patch = block(&rt, rt.alloc());
    patch.lay(&cell).expect(&rt, "memory");
    let all = patch.window(-1, -1, 2, 2).expect(&rt, "memory");
    same(&rt, &all.as_slice(), &[1u8, 2, 3, 9].as_slice(), &"all");
}

// Stops the test where a patch has another level.
fn has_level(rt: &impl Abort, alloc: Global, level: u8)
    requires { level ≤ 62 }
{
    same(rt, &Patch::new(alloc, level).level(), &level, &level);
}

#[test]
fn a_patch_has_its_level(rt: HostRuntime) {
    let alloc = rt.alloc();
    has_level(&rt, alloc, 0);
    has_level(&rt, alloc, 1);
    has_level(&rt, alloc, 62);
}

#[test]
fn a_tree_says_what_the_patch_says(rt: HostRuntime) {
    let alloc = rt.alloc();
    assert!(&rt; matches!(Patch::new(alloc, 1).tree(), PatchTree::Keep));
    let patch = block(&rt, alloc);
    match patch.tree() {
        PatchTree::Quad(four) => {
            assert!(&rt; matches!(&four.nw, PatchTree::Cell(1)));
            assert!(&rt; matches!(&four.ne, PatchTree::Cell(2)));
            assert!(&rt; matches!(&four.sw, PatchTree::Cell(3)));
            assert!(&rt; matches!(&four.se, PatchTree::Cell(4)));
        }
        _ => assert!(&rt; false, "a divided square"),
    }
}
