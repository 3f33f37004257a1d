//! Lines, texts, numbers and faults.
use std::fmt::Debug;
use std::process::Abort;

mod devices;
mod lines;
mod numbers;
mod replies;
mod texts;

pub fn same<T: PartialEq + Debug, A: Debug>(rt: &impl Abort, found: &T, wanted: &T, at: &A) {
    assert_eq!(rt; *found, *wanted, "at {at:?}");
}
