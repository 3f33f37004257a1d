//! Trees, and how they are asked.
use super::{STILL, expect_next, read, same};
use decision_tree::TreeRule;
use std::alloc::Global;
use std::process::Abort;

// Each cell copies its western neighbour.
pub const W: &[u8] = b"@RULE W\n\
    @TREE\n\
    num_states=2\n\
    num_neighbors=4\n\
    num_nodes=8\n\
    1 0 0\n\
    1 1 1\n\
    2 0 0\n\
    2 1 1\n\
    3 2 2\n\
    3 3 3\n\
    4 4 5\n\
    5 6 6\n";

// The same with line ends of two bytes, comments, blank lines, blanks and leading zeros.
const W_AGAIN: &[u8] = b"\r\n\
    @RULE W\r\n\
    5 6 6\r\n\
    \x20@TREE # the tree\r\n\
    # all of this is a comment, @TABLE too\r\n\
    \x20num_nodes\t=\t0008 # eight\r\n\
    \r\n\
    num_neighbors =004\r\n\
    num_states= 2\r\n\
    01\t00 0\r\n\
    1 \t 1\t1\r\n\
    \t2 0 0\t\r\n\
    2 1 1# one\r\n\
    3 002 2\r\n\
    \x20\t\r\n\
    3 3 3\r\n\
    4 4 5\r\n\
    5 6 6\r\n\
    @COLORS\r\n\
    5 6 6\r\n";

fn tree_of(rt: &impl Abort, alloc: Global, text: &[u8]) -> TreeRule {
    read(alloc, text).expect(rt, "a tree")
}

fn expect_states(rt: &impl Abort, rule: &TreeRule, wanted: u16) {
    same(rt, &rule.states(), &wanted, &"states");
}

// The corners count for nothing.
fn expect_west(rt: &impl Abort, rule: &TreeRule, number: u8) {
    let (n, w, e) = (number / 16 % 2, number / 8 % 2, number / 4 % 2);
    let (s, c) = (number / 2 % 2, number % 2);
    expect_next(rt, rule, [c, n, 0, e, 0, s, 0, w, 0], w);
    expect_next(rt, rule, [c, n, 1, e, 1, s, 1, w, 1], w);
}

fn expect_west_everywhere(rt: &impl Abort, alloc: Global, text: &[u8]) {
    let rule = tree_of(rt, alloc, text);
    expect_states(rt, &rule, 2);
    for number in 0..32 {
        expect_west(rt, &rule, number);
    }
}

#[test]
fn west_is_copied(rt: HostRuntime) {
    expect_west_everywhere(&rt, rt.alloc(), W);
    expect_west_everywhere(&rt, rt.alloc(), W_AGAIN);
}

// One live cell, at each of the nine places in turn.
const ONE_LIVE: [[u8; 9]; 9] = [
    [1, 0, 0, 0, 0, 0, 0, 0, 0],
    [0, 1, 0, 0, 0, 0, 0, 0, 0],
    [0, 0, 1, 0, 0, 0, 0, 0, 0],
    [0, 0, 0, 1, 0, 0, 0, 0, 0],
    [0, 0, 0, 0, 1, 0, 0, 0, 0],
    [0, 0, 0, 0, 0, 1, 0, 0, 0],
    [0, 0, 0, 0, 0, 0, 1, 0, 0],
    [0, 0, 0, 0, 0, 0, 0, 1, 0],
    [0, 0, 0, 0, 0, 0, 0, 0, 1],
];

fn expect_place(rt: &impl Abort, rule: &TreeRule, around: [u8; 9], place: usize) {
    let wanted = around.get(place).copied().expect(rt, "a place");
    expect_next(rt, rule, around, wanted);
}

// A tree of so many nodes that copies the state at this place, of C, N, NE, E, SE, S, SW, W, NW.
struct Copier {
    place: usize,
    count: u32,
    nodes: &'static str,
}

fn expect_copies(rt: &impl Abort, alloc: Global, case: &Copier) {
    let (count, nodes) = (case.count, case.nodes);
    let head = "num_states=2\nnum_neighbors=8";
    let text = format!(in alloc; "@RULE T\n@TREE\n{head}\nnum_nodes={count}\n{nodes}\n");
    let rule = tree_of(rt, alloc, text.expect(rt, "memory").as_bytes());
    expect_next(rt, &rule, [0; 9], 0);
    for around in ONE_LIVE {
        expect_place(rt, &rule, around, case.place);
    }
}

const COPIERS: [Copier; 9] = [
    Copier {
        place: 0,
        count: 9,
        nodes: "1 0 1\n2 0 0\n3 1 1\n4 2 2\n5 3 3\n6 4 4\n7 5 5\n8 6 6\n9 7 7",
    },
    Copier {
        place: 5,
        count: 10,
        nodes: "1 0 0\n1 1 1\n2 0 1\n3 2 2\n4 3 3\n5 4 4\n6 5 5\n7 6 6\n8 7 7\n9 8 8",
    },
    Copier {
        place: 3,
        count: 11,
        nodes: "1 0 0\n1 1 1\n2 0 0\n2 1 1\n3 2 3\n4 4 4\n5 5 5\n6 6 6\n7 7 7\n8 8 8\n9 9 9",
    },
    Copier {
        place: 7,
        count: 12,
        nodes: "1 0 0\n1 1 1\n2 0 0\n2 1 1\n3 2 2\n3 3 3\n4 4 5\n5 6 6\n6 7 7\n7 8 8\n8 9 9\n9 10 10",
    },
    Copier {
        place: 1,
        count: 13,
        nodes: "1 0 0\n1 1 1\n2 0 0\n2 1 1\n3 2 2\n3 3 3\n4 4 4\n4 5 5\n5 6 7\n6 8 8\n7 9 9\n\
        8 10 10\n9 11 11",
    },
    Copier {
        place: 4,
        count: 14,
        nodes: "1 0 0\n1 1 1\n2 0 0\n2 1 1\n3 2 2\n3 3 3\n4 4 4\n4 5 5\n5 6 6\n5 7 7\n6 8 9\n\
        7 10 10\n8 11 11\n9 12 12",
    },
    Copier {
        place: 6,
        count: 15,
        nodes: "1 0 0\n1 1 1\n2 0 0\n2 1 1\n3 2 2\n3 3 3\n4 4 4\n4 5 5\n5 6 6\n5 7 7\n6 8 8\n\
        6 9 9\n7 10 11\n8 12 12\n9 13 13",
    },
    Copier {
        place: 2,
        count: 16,
        nodes: "1 0 0\n1 1 1\n2 0 0\n2 1 1\n3 2 2\n3 3 3\n4 4 4\n4 5 5\n5 6 6\n5 7 7\n6 8 8\n\
        6 9 9\n7 10 10\n7 11 11\n8 12 13\n9 14 14",
    },
    Copier {
        place: 8,
        count: 17,
        nodes: "1 0 0\n1 1 1\n2 0 0\n2 1 1\n3 2 2\n3 3 3\n4 4 4\n4 5 5\n5 6 6\n5 7 7\n6 8 8\n\
        6 9 9\n7 10 10\n7 11 11\n8 12 12\n8 13 13\n9 14 15",
    },
];

#[test]
fn every_place_is_told_apart(rt: HostRuntime) {
    let alloc = rt.alloc();
    for case in &COPIERS {
        expect_copies(&rt, alloc, case);
    }
}

fn expect_at(rt: &impl Abort, rule: &TreeRule, centre: u8, north: u8, wanted: u8) {
    expect_next(rt, rule, [centre, north, 1, 2, 1, 2, 1, 2, 1], wanted);
}

#[test]
fn three_states(rt: HostRuntime) {
    // Where the northern neighbour has state 1 the states 1 and 2 change places.
    let text = b"@RULE T\n\
        @TREE\n\
        num_states=3\n\
        num_neighbors=4\n\
        num_nodes=9\n\
        1 0 1 2\n\
        1 0 2 1\n\
        2 0 0 0\n\
        2 1 1 1\n\
        3 2 2 2\n\
        3 3 3 3\n\
        4 4 4 4\n\
        4 5 5 5\n\
        5 6 7 6\n";
    let rule = tree_of(&rt, rt.alloc(), text);
    expect_states(&rt, &rule, 3);
    expect_at(&rt, &rule, 0, 0, 0);
    expect_at(&rt, &rule, 1, 0, 1);
    expect_at(&rt, &rule, 2, 0, 2);
    expect_at(&rt, &rule, 0, 1, 0);
    expect_at(&rt, &rule, 1, 1, 2);
    expect_at(&rt, &rule, 2, 1, 1);
    expect_at(&rt, &rule, 0, 2, 0);
    expect_at(&rt, &rule, 1, 2, 1);
    expect_at(&rt, &rule, 2, 2, 2);
}

// A still rule behind these three descriptors.
fn expect_described(rt: &impl Abort, alloc: Global, a: &str, b: &str, c: &str) {
    let text = format!(in alloc; "@RULE T\n@TREE\n{a}\n{b}\n{c}\n{STILL}\n");
    let rule = tree_of(rt, alloc, text.expect(rt, "memory").as_bytes());
    expect_states(rt, &rule, 2);
    expect_next(rt, &rule, [1, 0, 1, 0, 1, 0, 1, 0, 1], 1);
}

#[test]
fn descriptors_in_every_order(rt: HostRuntime) {
    let alloc = rt.alloc();
    let s = "num_states = 0002";
    let h = "num_neighbors=\t4";
    let n = "num_nodes  =5";
    expect_described(&rt, alloc, s, h, n);
    expect_described(&rt, alloc, s, n, h);
    expect_described(&rt, alloc, h, s, n);
    expect_described(&rt, alloc, h, n, s);
    expect_described(&rt, alloc, n, s, h);
    expect_described(&rt, alloc, n, h, s);
}
