use super::same;
use hash_engine::Asking;
use std::process::Abort;
use test_planes::are_below;
use test_rules::Copying;
use worlds::{Around, Ask};

/// Stops the test where a rule that takes the eastern neighbour's state doesn't, at first or again, or
/// hasn't these states.
fn expect_eastern(rt: &impl Abort, rule: &mut Asking<'_, Copying>, states: [u8; 9], wanted: u8) {
    assert!(rt; are_below(&states, rule.states()), "{states:?}");
    same(rt, &rule.ask(&Around(states)), &wanted, &states);
    same(rt, &rule.ask(&Around(states)), &wanted, &states);
}

#[test]
fn a_rule_answers_as_it_did_before(rt: HostRuntime) {
    let copying = Copying { from: 3 };
    let mut rule = Asking::new(&copying);
    expect_eastern(&rt, &mut rule, [0, 0, 0, 1, 0, 0, 0, 0, 0], 1);
    expect_eastern(&rt, &mut rule, [1, 1, 1, 0, 1, 1, 1, 1, 1], 0);
    expect_eastern(&rt, &mut rule, [0, 0, 0, 1, 0, 0, 0, 0, 1], 1);
    expect_eastern(&rt, &mut rule, [0, 1, 2, 3, 4, 5, 6, 7, 8], 3);
    expect_eastern(&rt, &mut rule, [255, 0, 0, 255, 0, 0, 0, 0, 0], 255);
}
