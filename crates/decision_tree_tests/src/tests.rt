//! Files with the trees that they mean, worked out by hand.
mod entries;
mod nodes;
mod trees;

use decision_tree::{TreeRule, read_tree};
use plane_core::Around;
use rule_file::{RuleFault, cut};
use std::alloc::Global;
use std::fmt::Debug;
use std::process::Abort;
use test_planes::are_below;

/// Five nodes under which a cell keeps its own state.
const STILL: &str = "1 0 1\n2 0 0\n3 1 1\n4 2 2\n5 3 3";

/// Stops the test where what was found isn't what is wanted.
fn same<T: PartialEq + Debug, A: Debug>(rt: &impl Abort, found: &T, wanted: &T, at: &A) {
    assert!(rt; *found == *wanted, "{at:?}: {found:?} is not {wanted:?}");
}

/// The tree of a file.
fn read(alloc: Global, text: &[u8]) -> Result<TreeRule, RuleFault> {
    let file = cut(alloc, text)?;
    read_tree(alloc, &file)
}

/// Stops the test where the tree doesn't have these nine states, or this isn't the next.
fn expect_next(rt: &impl Abort, tree: &TreeRule, around: [u8; 9], wanted: u8) {
    assert!(rt; are_below(&around, tree.states()), "{around:?}");
    same(rt, &tree.next(&Around(around)), &wanted, &around);
}
