//! The lines of a rule table, read: what they describe as a value, or their first fault.
//!
//! `read_lines` takes the lines of a section and gives how many states there are, which cells are
//! neighbours, in which arrangements they may stand, and the transitions with the sets of their
//! variables. What these mean together, and how much, is left to crates above.
//!
//! Reading goes over the lines once. A variable is found by its name in constant time.
#![tactic(auto)]

mod descriptors;
mod fields;
mod laws;
mod lines;
mod neighborhood;
mod state_set;
mod symmetry;
mod transition;
mod transitions;
mod variables;

pub use descriptors::Head;
pub use laws::{
    descriptors_stand_in_any_order, numbers_do_not_matter, tables_of_lines_are_read,
    tables_of_lines_are_written, written_is_its_file, written_tables_are_read,
};
pub use lines::{TableLines, read_lines};
pub use neighborhood::Neighborhood;
pub use state_set::StateSet;
pub use symmetry::Symmetry;
pub use transition::{Entry, Transition, Variable};
