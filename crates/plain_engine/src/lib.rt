//! The plain engine: many generations of a plane, one after another, each of which `plain_steps`
//! makes cell by cell.
//!
//! It shares no square and keeps nothing from call to call. It gives the planes that `step_engine`
//! gives: by their contracts both give those that so many steps lead to.
#![tactic(auto)]

mod engine;

pub use engine::evolve_plain;
