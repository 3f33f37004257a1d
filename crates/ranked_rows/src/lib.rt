//! Rows that stand by rising rank, and rows made anew from keys.
//!
//! A row is anything that has a rank, a number below 2^128. Rows that stand in a list by rising
//! rank are a finite map from ranks: `get` finds the row of a rank by a binary search, or at once
//! where it stands at the place that was guessed. `remade` makes the row of each of some rising
//! keys of the key and of the old row of its rank, if there is one. It goes over keys and old rows
//! once, side by side, and the rows stand in room that its caller gives.
#![tactic(auto)]

mod place;
mod ranked;
mod remake;

pub use place::{find, get, get_near, place_in, place_near};
pub use ranked::Ranked;
pub use remake::{Remakes, remade};
