//! The descriptors of a tree: how many states, neighbours and nodes.
ghost use Rattle.std.specs.Prelude.{◌≡◌, IfOk, IfSome};
ghost use Rattle.std.specs.Option.{option_map};
ghost use Rattle.basics.specs.Results.{Reads};
ghost use Rattle.decision_tree.specs.Kept.{IsTreeHead};
ghost use Rattle.decision_tree.specs.TreeLines.{describe, descriptor_named, descriptor_of, head_from, head_of, neighbors_in, node_count_in, undescribed};

use crate::tree::Neighbors;
use rule_file::{RuleFault, RuleLine, states_in};
use std::marker::Model;
use text_lines::{named_value, number};

/// The most nodes that a tree may have.
const MOST_NODES: u64 = 4_194_304;

/// What a descriptor describes.
#[derive(Clone, Copy, Debug, PartialEq, Eq)]
pub enum Descriptor {
    States,
    Neighbors,
    Nodes,
}

/// What a tree has beside its nodes, and how many of these.
#[derive(Clone, Copy, Debug)]
pub struct TreeHead {
    pub states: u16,
    pub neighbors: Neighbors,
    pub node_count: u32,
}

/// A descriptor and its value, if the line is one.
pub fn descriptor_of(line: &[u8]) -> Option<(Descriptor, &[u8])>
    ensures { option_map (λ found. (found.0, found.1.now)) result ≡ descriptor_of line.now }
{
    let (name, value) = named_value(line, b'=')?;
    Some((descriptor_named(name)?, value))
}

fn descriptor_named(word: &[u8]) -> Option<Descriptor>
    ensures { result ≡ descriptor_named word.now }
{
    if word == b"num_states".as_slice() {
        Some(Descriptor::States)
    } else if word == b"num_neighbors".as_slice() {
        Some(Descriptor::Neighbors)
    } else if word == b"num_nodes".as_slice() {
        Some(Descriptor::Nodes)
    } else {
        None
    }
}

fn neighbors_in(value: &[u8]) -> Option<Neighbors>
    ensures { result ≡ neighbors_in value.now }
{
    match number(value)? {
        4 => Some(Neighbors::Four),
        8 => Some(Neighbors::Eight),
        _ => None,
    }
}

fn node_count_in(value: &[u8]) -> Option<u32>
    ensures { result ≡ node_count_in value.now }
{
    match number(value)? {
        count @ 1..=MOST_NODES => Some(count as u32),
        _ => None,
    }
}

/// What the descriptors said so far.
#[derive(Debug, Drop)]
pub struct Described {
    states: Option<u16>,
    neighbors: Option<Neighbors>,
    node_count: Option<u32>,
}

impl Model for Described {
    ghost use Rattle.std.specs.Prelude.{IfSome, ◌≤◌};
    ghost use Rattle.rule_file.specs.States.{MayHaveStates};
    ghost use Rattle.decision_tree.specs.TreeLines.{Described, most_nodes};

    ghost Value = { Described };

    ghost view = { λ d. record {
      states = d.states;
      neighbors = d.neighbors;
      node_count = d.node_count;
    } };

    ghost invariant = { λ d. IfSome d.states MayHaveStates
        × IfSome d.node_count (λ n. (1 ≤ n) × (n ≤ most_nodes)) };
}

impl Described {
    /// Nothing yet.
    pub fn new() -> Described
        ensures { result ≡ undescribed }
    {
        Described {
            states: None,
            neighbors: None,
            node_count: None,
        }
    }

    /// Takes one more descriptor. None where it was there before, or its value is bad.
    pub fn describe(&mut self, descriptor: Descriptor, value: &[u8]) -> Option<()>
        ensures { option_map (λ _. self.new) result ≡ describe self.old descriptor value.now }
    {
        match descriptor {
            Descriptor::States => {
                if self.states.is_some() {
                    return None;
                }
                self.states = Some(states_in(value)?);
            }
            Descriptor::Neighbors => {
                if self.neighbors.is_some() {
                    return None;
                }
                self.neighbors = Some(neighbors_in(value)?);
            }
            Descriptor::Nodes => {
                if self.node_count.is_some() {
                    return None;
                }
                self.node_count = Some(node_count_in(value)?);
            }
        }
        Some(())
    }

    /// The head of the tree, if all three descriptors were there.
    pub fn head(&self) -> Option<TreeHead>
        ensures head { result ≡ head_of self.now }
        ensures limits { IfSome result IsTreeHead }
    {
        Some(TreeHead {
            states: self.states?,
            neighbors: self.neighbors?,
            node_count: self.node_count?,
        })
    }
}

/// The head that the first lines describe, up to one that is no descriptor, and the lines from
/// there on, of which there is at least one. `last` is the line at which missing lines show.
pub fn read_head<'a>(
    last: u64,
    lines: &'a [RuleLine<'a>],
) -> Result<(TreeHead, &'a [RuleLine<'a>]), RuleFault>
    ensures head { Reads (λ found. (found.0, found.1.now)) result
        (head_from last undescribed lines.now) }
    ensures limits { IfOk result (λ found. IsTreeHead found.0) }
{
    let mut described = Described::new();
    let mut left = lines;
    while let [line, later @ ..] = left {
        let Some((descriptor, value)) = descriptor_of(line.text()) else {
            let head = described.head().ok_or(RuleFault::BadTree(line.number()))?;
            return Ok((head, left));
        };
        described
            .describe(descriptor, value)
            .ok_or(RuleFault::BadTree(line.number()))?;
        left = later;
    }
    Err(RuleFault::BadTree(last))
}
