//! One generation after another, cell by cell.
//!
//! A generation is the list of its live cells and the same cells as a patch. The next one comes of
//! asking the rule once at each place at and around each listed cell, so a generation's cost grows
//! with its live cells and with the level of the least square that holds them, and not with their
//! distance.
#![tactic(auto)]

mod asked;
mod generation;
mod room;
mod spot;

pub use generation::{Generation, next_generation};
