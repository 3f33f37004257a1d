//! The nodes of a tree, one a line.
ghost use Rattle.std.specs.Prelude.{◌≡◌, ◌+◌, ◌==◌, ◌&&◌, [], nat_lt, length, slice_index, vec_capacity, IfOk, OnOk};
ghost use Rattle.std.specs.List.{list_all};
ghost use Rattle.rule_file.specs.Results.{GivesBy};
ghost use Rattle.decision_tree.specs.Kept.{AreKept, IsTreeHead, nodes_of};
ghost use Rattle.decision_tree.specs.TreeLines.{depth_of_root, do_entries_fit, is_next, nodes_from, with_line};

use crate::descriptors::TreeHead;
use crate::entry::{Entry, add_entries};
use crate::numbers::read_numbers;
use crate::tree::Neighbors;
use rule_file::{RuleFault, RuleLine};
use std::alloc::Global;

/// The nodes that were read: the depth of each, and the entries of all, one for each state.
#[derive(Debug, Drop)]
pub struct Nodes {
    pub depths: Vec<u32>,
    pub entries: Vec<Entry>,
}

impl Nodes {
    // None yet, and no room either, however many are claimed: room is made for what is read.
    fn none(alloc: Global) -> Nodes
        ensures depths { result.depths.items ≡ [] }
        ensures entries { result.entries.items ≡ [] }
        ensures room { (vec_capacity result.depths ≡ 0) × (vec_capacity result.entries ≡ 0) }
    {
        Nodes {
            depths: Vec::new(alloc),
            entries: Vec::new(alloc),
        }
    }
}

/// The nodes that the lines after the head say. `last` is the line at which missing lines show.
pub fn read_nodes(
    alloc: Global,
    last: u64,
    head: TreeHead,
    lines: &[RuleLine],
) -> Result<Nodes, RuleFault>
    requires { IsTreeHead head }
    ensures read { GivesBy (λ nodes. nodes_of head.states nodes.depths.items nodes.entries.items)
        result (nodes_from last head [] lines.now) }
    ensures kept { IfOk result (λ nodes. AreKept head nodes.depths.items nodes.entries.items) }
    ensures whole { IfOk result (λ nodes. length nodes.depths.items ≡ head.node_count) }
{
    let mut nodes = Nodes::none(alloc);
    for line in lines {
        read_node(alloc, head, &mut nodes, line)?;
    }
    if nodes.depths.len() != head.node_count as usize {
        return Err(RuleFault::BadTree(last));
    }
    Ok(nodes)
}

// Reads one more node.
fn read_node(
    alloc: Global,
    head: TreeHead,
    nodes: &mut Nodes,
    line: &RuleLine,
) -> Result<(), RuleFault>
    requires head { IsTreeHead head }
    requires kept { AreKept head nodes.old.depths.items nodes.old.entries.items }
    ensures read { GivesBy
        (λ _. nodes_of head.states nodes.new.depths.items nodes.new.entries.items) result
        (with_line head (nodes_of head.states nodes.old.depths.items nodes.old.entries.items)
        line.now) }
    ensures kept { OnOk result (AreKept head nodes.new.depths.items nodes.new.entries.items) }
{
    let fault = RuleFault::BadTree(line.number());
    let Some(numbers) = read_numbers(alloc, line.text())? else {
        return Err(fault);
    };
    let [depth, entries @ ..] = numbers.as_slice() else {
        return Err(fault);
    };
    if !is_next(head, &nodes.depths, *depth, entries) {
        return Err(fault);
    }
    nodes.depths.push(*depth)?;
    add_entries(&mut nodes.entries, entries)?;
    Ok(())
}

// Whether a node of this depth and these entries may stand behind nodes of these depths.
fn is_next(head: TreeHead, depths: &[u32], depth: u32, entries: &[u32]) -> bool
    ensures { result
        ≡ is_next head depths.now (record { depth = depth; entries = entries.now }) }
{
    let count = head.node_count as usize;
    depths.len() < count
        && entries.len() == usize::from(head.states)
        && do_entries_fit(head.states, depths, depth, entries)
        && (depths.len() + 1 < count || depth == depth_of_root(head.neighbors))
}

// Whether a node's entries are states, or at depths above 1 the numbers of nodes one less deep.
fn do_entries_fit(states: u16, depths: &[u32], depth: u32, entries: &[u32]) -> bool
    ensures { result
        ≡ do_entries_fit states depths.now (record { depth = depth; entries = entries.now }) }
{
    if depth == 1 {
        return are_states(u32::from(states), entries);
    }
    are_one_less_deep(depths, depth, entries)
}

fn are_states(states: u32, entries: &[u32]) -> bool
    ensures { result ≡ list_all (λ state. nat_lt state states) entries.now }
{
    entries.iter().all(|state| *state < states)
}

// Whether these are numbers of nodes that are one less deep than this depth.
fn are_one_less_deep(depths: &[u32], depth: u32, entries: &[u32]) -> bool
    ensures { result ≡ list_all (λ number. nat_lt number (length depths.now)
        && (slice_index depths.now number + 1 == depth)) entries.now }
{
    entries
        .iter()
        .all(|number| is_above(depths, *number, depth))
}

// Whether this depth is one more than that of the node of this number.
fn is_above(depths: &[u32], number: u32, depth: u32) -> bool
    ensures { result
        ≡ (nat_lt number (length depths.now) && (slice_index depths.now number + 1 == depth)) }
{
    match depths.get(number as usize) {
        Some(below) => u64::from(*below) + 1 == u64::from(depth),
        None => false,
    }
}

fn depth_of_root(neighbors: Neighbors) -> u32
    ensures { result ≡ depth_of_root neighbors }
{
    match neighbors {
        Neighbors::Four => 5,
        Neighbors::Eight => 9,
    }
}
