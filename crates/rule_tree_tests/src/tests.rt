//! Files with the rules that they mean, worked out by hand.
mod beginnings;
mod equality;
mod rules;

use plane_core::{Around, Next};
use rule_tree::Rule;
use std::fmt::Debug;
use std::process::Abort;
use test_planes::are_below;

/// Stops the test where what was found isn't what is wanted.
fn same<T: PartialEq + Debug, A: Debug>(rt: &impl Abort, found: &T, wanted: &T, at: &A) {
    assert!(rt; *found == *wanted, "{at:?}: {found:?} is not {wanted:?}");
}

/// Stops the test where the rule doesn't have these nine states, or this isn't the next.
fn expect_next(rt: &impl Abort, rule: &Rule, around: [u8; 9], wanted: u8) {
    assert!(rt; are_below(&around, rule.states()), "{around:?}");
    same(rt, &rule.next(&Around(around)), &wanted, &around);
}
