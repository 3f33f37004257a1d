//! Macrocell texts with what they say, worked out by hand.
mod beginnings;
mod bitmaps;
mod faults;
mod headings;
mod nodes;

use basics::Refusal;
use macrocell_lines::{Bitmap, McFault, Node, read_macrocell};
use std::alloc::Global;
use std::fmt::Debug;
use std::process::Abort;

/// Stops the test where what was found isn't what is wanted.
fn same<T: PartialEq + Debug, A: Debug>(rt: &impl Abort, found: &T, wanted: &T, at: &A) {
    assert!(rt; *found == *wanted, "{at:?}: {found:?} is not {wanted:?}");
}

/// Adds the bytes.
fn add(rt: &impl Abort, text: &mut Vec<u8>, bytes: &[u8]) {
    text.extend_from_slice(bytes).expect(rt, "memory");
}

/// These lines behind the first.
fn with_first(rt: &impl Abort, alloc: Global, lines: &[u8]) -> Vec<u8> {
    let mut text = Vec::new(alloc);
    add(rt, &mut text, b"[M2]\n");
    add(rt, &mut text, lines);
    text
}

/// Stops the test where these lines behind the first don't say these nodes.
fn expect_nodes(rt: &impl Abort, alloc: Global, lines: &[u8], wanted: &[Node]) {
    let text = with_first(rt, alloc, lines);
    let said = read_macrocell(alloc, &text).expect(rt, "a macrocell");
    same(rt, &said.nodes(), &wanted, &lines);
}

/// Stops the test where these lines behind the first don't give this name and this generation.
fn expect_heading(rt: &impl Abort, alloc: Global, lines: &[u8], name: &[u8], generation: u64) {
    let text = with_first(rt, alloc, lines);
    let said = read_macrocell(alloc, &text).expect(rt, "a macrocell");
    same(rt, &said.rule_name(), &name, &lines);
    same(rt, &said.generation(), &generation, &lines);
}

/// Stops the test where the text isn't refused by this number with this line, or for 0 read.
fn expect_outcome(rt: &impl Abort, alloc: Global, text: &[u8], number: u8, line: Option<u64>) {
    let fault: Option<McFault> = read_macrocell(alloc, text).err();
    let reason = fault.map(|fault| fault.reason());
    let found = reason.map_or((0, None), |reason| (reason.number, reason.place));
    same(rt, &found, &(number, line), &text);
}

/// The same, of these lines behind the first.
fn expect_fault(rt: &impl Abort, alloc: Global, lines: &[u8], number: u8, line: Option<u64>) {
    let text = with_first(rt, alloc, lines);
    expect_outcome(rt, alloc, &text, number, line);
}

fn cells(nw: u8, ne: u8, sw: u8, se: u8) -> Node {
    Node::Cells { nw, ne, sw, se }
}

fn square(level: u8, nw: u32, ne: u32, sw: u32, se: u32) -> Node {
    Node::Square {
        level,
        nw,
        ne,
        sw,
        se,
    }
}

fn bitmap(rows: [u8; 8]) -> Node {
    Node::Bitmap(Bitmap { rows })
}
