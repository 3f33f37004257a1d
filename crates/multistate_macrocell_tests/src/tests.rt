//! Macrocell files with the patterns that they mean, worked out by hand.
mod beginnings;
mod reading;
mod writing;

use basics::Refusal;
use multistate_macrocell::{Loaded, read_mc};
use std::alloc::Global;
use std::fmt::Debug;
use std::process::Abort;

/// Stops the test where what was found isn't what is wanted.
fn same<T: PartialEq + Debug, A: Debug>(rt: &impl Abort, found: &T, wanted: &T, at: &A) {
    assert!(rt; *found == *wanted, "{at:?}: {found:?} is not {wanted:?}");
}

/// The pattern of a file without a fault.
fn read(rt: &impl Abort, alloc: Global, text: &[u8]) -> Loaded {
    read_mc(alloc, text).expect(rt, "a macrocell file")
}
