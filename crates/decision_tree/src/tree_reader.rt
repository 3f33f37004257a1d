//! Reading a tree: first its descriptors, then a node a line.
ghost use Rattle.std.specs.Prelude.{◌≡◌, Err, IfOk, IsOk, IsTrue, length};
ghost use Rattle.rule_file.specs.Results.{Gives};
ghost use Rattle.decision_tree.specs.Kept.{AreKept, IsTreeHead, nodes_of};
ghost use Rattle.decision_tree.specs.Tree.{is_sound};
ghost use Rattle.decision_tree.specs.TreeLines.{head_in, if_quiescent, last_number, tree_from, tree_of};

use crate::descriptors::{TreeHead, read_head};
use crate::entries::Entries;
use crate::nodes::{Nodes, read_nodes};
use crate::tree::{TreeRule, next_in};
use plane_core::Around;
use rule_file::{RuleFault, RuleText};
use std::alloc::Global;

/// Reads the lines of a section as those of a tree.
///
/// The descriptors num_states, num_neighbors and num_nodes stand first, in any order; then each
/// line is a node: its depth and an entry for each state, parted by blanks. The first faulty line is
/// answered by BadTree; for missing lines it is the section's last line, or the one that opens it
/// where there is none. After all lines comes NotQuiescent. NoMemory comes only where memory was
/// wanted, and never where the descriptors have a fault.
pub fn read_tree(alloc: Global, text: &RuleText) -> Result<TreeRule, RuleFault>
    ensures tree { Gives result (tree_of text.now.section) }
    ensures sound { IfOk result (λ tree. IsTrue (is_sound tree)) }
    ensures no_memory { result ≡ Err RuleFault.NoMemory → IsOk (head_in text.now.section) }
{
    let last = last_line(text);
    let (head, lines) = read_head(last, text.lines())?;
    let nodes = read_nodes(alloc, last, head, lines)?;
    finish(alloc, head, nodes)
}

// The tree of these nodes, unless it is not quiescent.
fn finish(alloc: Global, head: TreeHead, nodes: Nodes) -> Result<TreeRule, RuleFault>
    requires head { IsTreeHead head }
    requires kept { AreKept head nodes.depths.items nodes.entries.items }
    requires whole { length nodes.depths.items ≡ head.node_count }
    ensures tree { Gives result (if_quiescent (tree_from head
        (nodes_of head.states nodes.depths.items nodes.entries.items))) }
    ensures sound { IfOk result (λ tree. IsTrue (is_sound tree)) }
{
    let entries = Entries::of(alloc, nodes.entries)?;
    let root = head.node_count - 1;
    let zeros = Around([0; 9]);
    if next_in(head.states, head.neighbors, root, &entries, &zeros) != 0 {
        return Err(RuleFault::NotQuiescent);
    }
    Ok(TreeRule::new(head.states, head.neighbors, root, entries))
}

// The number of the section's last line, or of the line that opens it.
fn last_line(text: &RuleText) -> u64
    ensures { result ≡ last_number text.now.section.opened text.now.section.lines }
{
    match text.lines().last() {
        Some(line) => line.number(),
        None => text.opened(),
    }
}
