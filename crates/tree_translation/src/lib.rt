//! Translating rule tables to decision trees.
//!
//! `from_table` gives the smallest tree with the next states of a table, or says that even the
//! smallest has more than 1,000,000 nodes. Nodes are counted as they are made, and none is made
//! that isn't needed: so a table whose tree is too large costs no more than a tree of 1,000,000
//! nodes.
#![tactic(auto)]

mod laws;
mod layers;
mod listed;
mod near;
mod numbering;
mod packed;
mod sharing;
mod translation;
mod tree_fault;

pub use laws::trees_have_the_nodes_needed;
pub use translation::{from_rows, from_table};
pub use tree_fault::TreeFault;
