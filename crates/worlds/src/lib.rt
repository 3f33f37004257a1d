//! Cells, worlds and the step: what a pattern and a generation are, for every crate of the desk.
//!
//! A world is a finite map from places to states, and stands in contracts for a pattern in whatever
//! form it is kept. The definitions of laying, of the step and of what arrives at a generation speak
//! of worlds alone, and so do their laws. A rule is any `Next`, or any `Ask`, which counts its
//! questions, and what may end a long computation is any `Stop`. The crate has no pattern of its
//! own, and nothing here takes memory.
#![tactic(auto)]

mod ask;
mod cell;
mod laws;
mod next;
mod stop;

pub use ask::Ask;
pub use cell::{Bounds, Cell, CellSet};
pub use laws::{
    arrival_depends_on_the_past, arrival_undisturbed, depends_on_the_near, empty_stays_empty,
    same_states_same_world, spreads_one_cell, state_after_lay, state_after_moving,
    state_after_step, step_commutes_with_moving, steps_add,
};
pub use next::{Around, Next};
pub use stop::{NoStop, Stop};
