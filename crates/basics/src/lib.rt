//! What every crate of the workspace stands on: lists, and what every refusal has.
//!
//! `Listing` is a `Vec` that contracts see as the list alone, and `Refusal` the number, the name
//! and the place of a reason why something was refused. Nothing here takes memory but `copy`.
#![tactic(auto)]

mod listing;
mod refusal;

pub use listing::Listing;
pub use refusal::{Reason, Refusal};
