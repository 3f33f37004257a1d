//! Rules of cellular automata that are given by a decision tree, as Golly's `.rule` files have them.
//!
//! A tree finds the next state of a cell by its neighbours, one a level: each node has an entry for
//! each state, the number of the node to go on with, and at the last level the next state.
//! `read_tree` gives exactly the tree that the lines of a section mean, or the first fault that they
//! have with its line; and `TreeRule` answers the state to which the tree leads.
//!
//! Reading goes over the lines once, in time and memory in proportion to the lines that are there,
//! however many nodes are claimed. A next state costs one look-up in an array for each of the
//! neighbours and the cell.
#![tactic(auto)]

mod descriptors;
mod entries;
mod entry;
mod laws;
mod nodes;
mod numbers;
mod tree;
mod tree_reader;

pub use entries::Entries;
pub use entry::{Entry, add_entries};
pub use laws::{trees_of_files_are_sound, written_is_its_file, written_means_the_same};
pub use tree::{Neighbors, TreeRule};
pub use tree_reader::read_tree;
