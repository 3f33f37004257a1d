//! Tables with what they mean, worked out by hand.
mod expansions;
mod lookups;

use plane_core::Around;
use rule_file::{RuleFault, cut};
use std::alloc::Global;
use std::fmt::Debug;
use std::process::Abort;
use table_symmetry::{Expanded, TableRule, read_expanded, read_table};
use test_planes::are_below;

/// Stops the test where what was found isn't what is wanted.
fn same<T: PartialEq + Debug, A: Debug>(rt: &impl Abort, found: &T, wanted: &T, at: &A) {
    assert!(rt; *found == *wanted, "{at:?}: {found:?} is not {wanted:?}");
}

/// A file whose table has these lines.
fn file(rt: &impl Abort, alloc: Global, lines: &str) -> String {
    format!(in alloc; "@RULE T\n@TABLE\n{lines}").expect(rt, "memory")
}

/// Reads a table.
fn read(rt: &impl Abort, alloc: Global, lines: &str) -> Result<TableRule, RuleFault> {
    let file = file(rt, alloc, lines);
    let text = cut(alloc, file.as_bytes()).expect(rt, "a rule file");
    read_table(alloc, &text)
}

/// The rule of a table that can be read.
fn rule(rt: &impl Abort, alloc: Global, lines: &str) -> TableRule {
    read(rt, alloc, lines).expect(rt, "a table")
}

/// The expanded transitions that reading a table lists.
fn listed(rt: &impl Abort, alloc: Global, lines: &str) -> Vec<Expanded> {
    let file = file(rt, alloc, lines);
    let text = cut(alloc, file.as_bytes()).expect(rt, "a rule file");
    let (_, rows) = read_expanded(alloc, &text).expect(rt, "a table");
    rows
}

/// The rule of a table that is read alone, with a look-up that is made later.
fn looked_up(rt: &impl Abort, alloc: Global, lines: &str) -> TableRule {
    let file = file(rt, alloc, lines);
    let text = cut(alloc, file.as_bytes()).expect(rt, "a rule file");
    let (table, rows) = read_expanded(alloc, &text).expect(rt, "a table");
    TableRule::new(alloc, table, &rows).expect(rt, "memory")
}

/// The next state, of states that the rule has.
fn next(rt: &impl Abort, rule: &TableRule, around: [u8; 9]) -> u8 {
    assert!(rt; are_below(&around, rule.states()), "{around:?}");
    rule.next(&Around(around))
}

fn gives(rt: &impl Abort, rule: &TableRule, around: [u8; 9], wanted: u8) {
    same(rt, &next(rt, rule, around), &wanted, &around);
}
