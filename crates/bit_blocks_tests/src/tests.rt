mod asks;
mod generations;
mod rules;
mod squares;

use bit_blocks::{Answers, four_later};
use rules::Counting;
use squares::{Cells, quadrants};
use std::alloc::Global;
use std::fmt::Debug;
use std::process::Abort;
use worlds::Next;

/// Stops the test where what was found isn't what is wanted.
fn same<T: PartialEq + Debug, A: Debug>(rt: &impl Abort, found: &T, wanted: &T, at: &A) {
    assert!(rt; *found == *wanted, "{at:?}: {found:?} is not {wanted:?}");
}

/// The blocks in the middle of the square four generations later, by a rule that wasn't asked yet.
fn found<R: Next>(rt: &impl Abort, alloc: Global, rule: &R, cells: &Cells) -> Option<[u16; 4]> {
    let mut answers = Answers::nothing(alloc).expect(rt, "memory");
    four_later(&mut answers, &mut Counting::new(rule), &quadrants(cells))
}
