//! Every beginning of a tree's file and of a table's file, with what it means reckoned from the places
//! of the line ends.
use super::{expect_next, same};
use basics::Refusal;
use rule_tree::Rule;
use std::alloc::Global;
use std::process::Abort;

// Each cell copies its western neighbour. The lines end before 8, 14, 27, 43, 55, and then before
// each sixth byte, so that line 13 ends before 103.
const TREE: &[u8] =
    b"@RULE W\n@TREE\nnum_states=2\nnum_neighbors=4\nnum_nodes=8\n1 0 0\n1 1 1\n2 0 0\n2 1 1\n3 2 2\n3 3 3\n4 4 5\n5 6 6\n";

// A cell of state 0 with one neighbour of 1 and one of 2 takes the state 1. The lines end before
// 8, 15, 26, 50, 69, 81, 93 and 105.
const TABLE: &[u8] =
    b"@RULE L\n@TABLE\nn_states:3\nneighborhood:vonNeumann\nsymmetries:permute\nvar a={1,2}\nvar b={1,2}\n0,a,b,0,0,a\n";

/// The number and the line of a fault, or 0 where the file is read.
type Outcome = (u8, Option<u64>);

/// What the first so many bytes of the tree's file come to.
fn tree_outcome(len: usize) -> Outcome {
    match len {
        0..=6 => (1, None),
        7..=12 => (2, None),
        13..=14 => (12, Some(2)),
        // A line that isn't whole is faulty, and one that is whole is the last before the missing.
        15..=27 => (12, Some(3)),
        28..=43 => (12, Some(4)),
        44..=55 => (12, Some(5)),
        56..=61 => (12, Some(6)),
        62..=67 => (12, Some(7)),
        68..=73 => (12, Some(8)),
        74..=79 => (12, Some(9)),
        80..=85 => (12, Some(10)),
        86..=91 => (12, Some(11)),
        92..=97 => (12, Some(12)),
        98..=101 => (12, Some(13)),
        _ => (0, None),
    }
}

/// What the first so many bytes of the table's file come to.
fn table_outcome(len: usize) -> Outcome {
    match len {
        0..=6 => (1, None),
        7..=13 => (2, None),
        // A descriptor is missing, or its line has no sign and so isn't one.
        14..=23 | 25..=38 | 49..=60 => (3, None),
        24 => (4, None),
        39..=48 => (5, None),
        61..=67 => (6, None),
        // Without a blank and a name behind it `var` is a transition of three entries.
        70..=73 => (8, Some(6)),
        74..=79 => (7, Some(6)),
        82..=85 => (8, Some(7)),
        86..=91 => (7, Some(7)),
        94..=103 => (8, Some(8)),
        _ => (0, None),
    }
}

/// The rule of the text, or nothing where it is refused; either as wanted.
fn rule_of(rt: &impl Abort, alloc: Global, text: &[u8], wanted: &Outcome) -> Option<Rule> {
    let read = Rule::read(alloc, text);
    let found = match &read {
        Ok(_) => (0, None),
        Err(fault) => (fault.reason().number, fault.reason().place),
    };
    same(rt, &found, wanted, &text);
    read.ok()
}

fn expect_tree(rt: &impl Abort, alloc: Global, len: usize) {
    let text = &TREE[..len.min(TREE.len())];
    let Some(rule) = rule_of(rt, alloc, text, &tree_outcome(len)) else {
        return;
    };
    same(rt, &rule.name(), &b"W".as_slice(), &len);
    expect_next(rt, &rule, [0, 0, 0, 0, 0, 0, 0, 1, 0], 1);
    expect_next(rt, &rule, [1, 1, 0, 1, 0, 1, 0, 0, 0], 0);
}

#[test]
fn beginnings_of_a_tree(rt: HostRuntime) {
    for len in 0..104usize {
        expect_tree(&rt, rt.alloc(), len);
    }
}

fn expect_table(rt: &impl Abort, alloc: Global, len: usize) {
    let text = &TABLE[..len.min(TABLE.len())];
    let Some(rule) = rule_of(rt, alloc, text, &table_outcome(len)) else {
        return;
    };
    same(rt, &rule.name(), &b"L".as_slice(), &len);
    // The last line is whole from here on.
    let next = if len >= 104 { 1 } else { 0 };
    expect_next(rt, &rule, [0, 2, 0, 1, 0, 0, 0, 0, 0], next);
    expect_next(rt, &rule, [2, 0, 0, 0, 0, 0, 0, 0, 0], 2);
}

#[test]
fn beginnings_of_a_table(rt: HostRuntime) {
    for len in 0..106usize {
        expect_table(&rt, rt.alloc(), len);
    }
}
