//! The counted engine: many generations of a plane at once, with a report of the way.
//!
//! `evolve` and `evolve_by` go by HashLife as `step_engine` does, but the whole way at once, over a
//! table of their own, and make each square that HashLife makes. So they can say how many different
//! squares there were, how many of these had 4 by 4 cells, and how many of those were put to the rule,
//! each of them once. `result` finds one square's result so.
#![tactic(auto)]

mod at_once;
mod counts;
mod evolved;
mod found;

pub use at_once::{evolve, evolve_by};
pub use evolved::{Evolved, Report};
pub use found::{CountedResult, result};
pub use hash_engine::Asking;
