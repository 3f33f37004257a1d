//! Nodes of a tree that share what is equal.
ghost use Rattle.std.specs.Prelude.{◌≡◌, ◌≤◌, ◌*◌, length, All, IfErr, IfOk, OnOk};
ghost use Rattle.std.specs.List.{IsDistinct};
ghost use Rattle.tree_translation.specs.declared.tree_fault.TreeFault.TheVariants.{TreeTooLarge};
ghost use Rattle.decision_tree.specs.Kept.{nodes_in};
ghost use Rattle.tree_translation.specs.Layers.{IsGrownBy};
ghost use Rattle.tree_translation.specs.Numbering.{IsFull, IsStored, entries_in, same_node};
ghost use Rattle.tree_translation.specs.Translation.{node_limit};

use crate::listed::Node;
use crate::tree_fault::TreeFault;
use decision_tree::Entry;
use indexmap::IndexSet;
use std::alloc::{AllocError, Global};

/// The most nodes that a translated tree may have.
const NODE_LIMIT: usize = 1_000_000;

/// The number of a node among these, behind which it is put where it isn't there.
///
/// TreeTooLarge comes where they would be more than 1,000,000, NoMemory only where memory was
/// wanted.
#[tactic(auto, using(crate::proofs::MadeNodes::position_none, std::proofs::lemmas::Grind::common_steps))]
pub fn add_node(nodes: &mut IndexSet<Node>, node: Node) -> Result<u32, TreeFault>
    requires few { length nodes.old.keys ≤ node_limit }
    ensures stored { IfOk result (λ number. IsStored nodes.new.keys node number) }
    ensures grown { OnOk result (IsGrownBy nodes.old.keys node nodes.new.keys) }
    ensures apart { OnOk result (IsDistinct same_node nodes.new.keys) }
    ensures few { OnOk result (length nodes.new.keys ≤ node_limit) }
    ensures large { IfErr result (λ fault. fault ≡ TreeTooLarge → IsFull nodes.old.keys node) }
{
    let (index, _) = nodes.insert_full(node)?;
    if index >= NODE_LIMIT {
        return Err(TreeFault::TreeTooLarge);
    }
    Ok(index as u32)
}

/// The entries of all nodes, one after another.
pub fn joined(alloc: Global, states: u16, nodes: &[Node]) -> Result<Vec<Entry>, AllocError>
    requires width { All (λ node. length node ≡ states) (entries_in nodes.now) }
    ensures filled { IfOk result (λ entries. length entries.items ≡ length nodes.now * states) }
    ensures nodes { IfOk result (λ entries. nodes_in states
        (length nodes.now) entries.items ≡ entries_in nodes.now) }
{
    let count = nodes.len().saturating_mul(usize::from(states));
    let mut entries = Vec::with_capacity(alloc, count)?;
    for node in nodes {
        node.entries.add_to(&mut entries)?;
    }
    Ok(entries)
}
