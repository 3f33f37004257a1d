//! The document of an experiment, and what edits make of it.
//!
//! A document has a rule, a start, interventions, bookmarks and branches of history. `check` gives
//! the refusal of an edit, and `make` makes exactly the document that the definition of an edit
//! that fits gives, or finds no memory and changes nothing; `apply` is one after the other. What a
//! bookmark shows by definition, computed anew from the start along the line of its branch, stands
//! in `specs/Scratch.antt`, and the laws of branches and of repeating interventions in
//! `specs/Laws.antt`.
//!
//! An edit costs one pass over what it changes, and where it may make more marks what counting them
//! costs (`src/repeats.rt`); rule and start are shared and not copied.
#![tactic(auto)]

mod acts;
mod apply;
mod branch;
mod check;
mod document;
mod edit;
mod fault;
mod generations;
mod laws;
mod repeats;

pub use acts::Acts;
pub use basics::{Listing, Reason, Refusal};
pub use bookmarks::View;
pub use branch::Branch;
pub use document::{Bookmark, Document, Intervention};
pub use edit::{Edit, Edited};
pub use fault::EditFault;
pub use generations::Generations;
pub use laws::{
    arrival_depends_on_its_line, arrival_depends_on_worlds, arrival_within_reach, branch_begins,
    branch_steps, branch_undisturbed, marks_are_counted, new_branch_keeps_arrivals,
    reach_is_greatest, removed_branch_keeps_arrivals, repeat_is_its_singles,
    repeats_are_progressions, start_arrives, without_branches,
};
pub use plane_core::{CellSet, Next, Plane};
pub use repeats::MOST_MARKS;
pub use rule_tree::Rule;
