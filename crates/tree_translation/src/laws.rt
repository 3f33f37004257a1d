//! A law of the definitions, the contract of a function that does nothing.
ghost use Rattle.tree_translation.specs.Laws.{TreesHaveTheNodesNeeded};

/// A tree of a file that does what a table does has as many nodes as the table needs.
pub fn trees_have_the_nodes_needed()
    ensures { TreesHaveTheNodesNeeded }
{}
