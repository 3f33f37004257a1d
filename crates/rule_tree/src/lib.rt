//! Rules of cellular automata, read from Golly's `.rule` files.
//!
//! `Rule::read` takes the bytes of a file and gives exactly the rule that they mean, a table or a
//! tree, or the first fault that they have with its line. A rule answers the next state of a cell
//! by the states at and around it. A table is translated to a tree where that isn't too large, and
//! then the tree is asked.
#![tactic(auto)]

mod asked_table;
mod laws;
mod rule;

pub use decision_tree::{Neighbors, TreeRule, read_tree};
pub use laws::{
    equal_rules_are_alike, rules_are_what_is_said, rules_of_files_are_plain,
    written_tables_are_rules, written_trees_are_rules,
};
pub use rule::Rule;
pub use tree_translation::{TreeFault, from_table, trees_have_the_nodes_needed};
