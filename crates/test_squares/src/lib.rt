//! What tests of results need of squares: a table's squares by their live cells, and what a call has to
//! know of them.
//!
//! Only crates of tests use it.
#![tactic(auto)]

mod squares;

pub use squares::{GLIDER, Place, is_below, is_number, square_of};
