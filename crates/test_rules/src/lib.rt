//! What tests of engines need: rules, and a stop that says yes at a given poll.
//!
//! Only crates of tests use it.
#![tactic(auto)]

mod countdown;
mod rules;

pub use countdown::Countdown;
pub use rules::{Copying, Life, OneOfTwo, OnlyNeighbour, Star};
