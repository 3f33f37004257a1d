//! Patches laid on squares of a table: the square that has what a patch says, and else what it had.
//!
//! `lay` takes one look-up for each divided square of the patch and for each level above it.
#![tactic(auto)]

mod laying;

pub use laying::lay;
