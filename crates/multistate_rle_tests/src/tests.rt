//! Patterns as they are read and written, worked out by hand.
mod bodies;
mod faults;
mod heads;
mod whole;
mod writing;

use basics::Refusal;
use multistate_rle::{RleFault, read_rle};
use plane_core::{Loaded, Plane};
use std::alloc::Global;
use std::fmt::Debug;
use std::process::Abort;
use test_planes::{Row, rows_of};

// The header `x = 1, y = 1` is line 1, and the body begins at offset 13.
const PLAIN: &[u8] = b"x = 1, y = 1\n";

/// Stops the test where what was found isn't what is wanted.
fn same<T: PartialEq + Debug, A: Debug>(rt: &impl Abort, found: &T, wanted: &T, at: &A) {
    assert!(rt; *found == *wanted, "{at:?}: {found:?} is not {wanted:?}");
}

/// Adds the bytes.
fn add(rt: &impl Abort, text: &mut Vec<u8>, bytes: &[u8]) {
    text.extend_from_slice(bytes).expect(rt, "memory");
}

/// The two texts, one behind the other.
fn joined(rt: &impl Abort, alloc: Global, front: &[u8], back: &[u8]) -> Vec<u8> {
    let mut text = Vec::new(alloc);
    add(rt, &mut text, front);
    add(rt, &mut text, back);
    text
}

/// Stops the test where the live cells of the plane aren't these, row by row.
fn expect_cells(rt: &impl Abort, alloc: Global, plane: &Plane, rows: &[Row], text: &[u8]) {
    let found = rows_of(alloc, plane).expect(rt, "memory, and at most a thousand live cells");
    same(rt, &found.as_slice(), &rows, &text);
}

/// Stops the test where the text isn't read as a pattern of this name and generation.
fn expect_read(
    rt: &impl Abort,
    alloc: Global,
    text: &[u8],
    rows: &[Row],
    name: &[u8],
    generation: u64,
) {
    let loaded: Loaded = read_rle(alloc, text).expect(rt, "a pattern");
    expect_cells(rt, alloc, &loaded.plane, rows, text);
    same(rt, &loaded.rule_name.as_slice(), &name, &text);
    same(rt, &loaded.generation, &generation, &text);
}

/// Stops the test where the text isn't refused by this number with this offset, or for 0 read.
fn expect_outcome(rt: &impl Abort, alloc: Global, text: &[u8], number: u8, place: Option<u64>) {
    let fault: Option<RleFault> = read_rle(alloc, text).err();
    let reason = fault.map(|fault| fault.reason());
    let found = reason.map_or((0, None), |reason| (reason.number, reason.place));
    same(rt, &found, &(number, place), &text);
}
