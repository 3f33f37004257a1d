//! What tests need of planes: planes and their live cells as the rows of tables, and whether cells and
//! planes keep the limits that calls ask for.
//!
//! Only crates of tests use it. Nothing here ends a test: where there is no answer, the test says so.
#![tactic(auto)]

mod limits;
mod rows;

pub use limits::{
    all_can_be_drawn, all_can_be_laid, are_below, can_be_drawn, can_be_laid, is_below,
};
pub use rows::{Row, laid, plane_of, rows_of, sets_of};
