//! Rules that are given by a tree.
ghost use Rattle.std.specs.Prelude.{◌≡◌, ◌↔◌, ◌<◌, ◌≤◌, ◌+◌, All, IsTrue};
ghost use Rattle.rule_file.specs.States.{least_states, most_states};
ghost use Rattle.decision_tree.specs.Kept.{nodes_in, Stores};
ghost use Rattle.decision_tree.specs.Tree.{follow, inputs_of, next, places_of};

use crate::entries::{Entries, follow};
use plane_core::Around;
use std::marker::Model;

/// Which cells around a cell are its neighbours.
#[derive(Clone, Copy, Debug, PartialEq, Eq)]
pub enum Neighbors {
    /// The cells to the north, west, east and south.
    Four,
    /// These and the cells at the four corners.
    Eight,
}

/// A rule that is given by a tree: from the root on, each neighbour's state and at last the cell's
/// own choose an entry, the number of the next node, and the last entry is the next state.
#[derive(Debug, Drop)]
pub struct TreeRule {
    states: u16,
    neighbors: Neighbors,
    // The number of the last node, counted from 0.
    root: u32,
    // The entries of all nodes in order, one for each state.
    entries: Entries,
}

impl Model for TreeRule {
    ghost use Rattle.decision_tree.specs.Tree.{Tree};

    ghost Value = { Tree };

    ghost use Rattle.decision_tree.specs.Kept.{IsKeptTree, tree_of_kept};

    ghost view = { λ rule. tree_of_kept rule.states rule.neighbors rule.root rule.entries };

    ghost invariant = { λ rule.
        IsKeptTree rule.states rule.neighbors rule.root rule.entries };
}

impl TreeRule {
    ghost use Rattle.decision_tree.specs.Kept.{IsKeptTree, tree_of_kept};

    /// The tree of these entries, which stand one node after another up to the root.
    pub fn new(states: u16, neighbors: Neighbors, root: u32, entries: Entries) -> TreeRule
        requires { IsKeptTree states neighbors root entries }
        ensures { result ≡ tree_of_kept states neighbors root entries }
    {
        TreeRule {
            states,
            neighbors,
            root,
            entries,
        }
    }

    /// How many states there are, from 2 to 256.
    pub fn states(&self) -> u16
        ensures count { result ≡ self.now.states }
        ensures at_least { least_states ≤ result }
        ensures at_most { result ≤ most_states }
    {
        self.states
    }

    /// Whether the other tree is the same: it has as many states, the same neighbours and the same
    /// nodes in the same order. Takes no memory.
    pub fn equals(&self, other: &TreeRule) -> bool
        ensures { IsTrue result ↔ (self.now ≡ other.now) }
    {
        if self.states != other.states || self.neighbors != other.neighbors {
            return false;
        }
        self.entries == other.entries
    }

    /// The next state of the cell in the middle. All nine states are below `states`.
    pub fn next(&self, around: &Around) -> u8
        requires { All (λ s. s < self.now.states) around.now.0 }
        ensures { result ≡ next self.now around.now.0 }
    {
        next_in(
            self.states,
            self.neighbors,
            self.root,
            &self.entries,
            around,
        )
    }
}

/// The next state under the tree of these entries.
pub(crate) fn next_in(
    states: u16,
    neighbors: Neighbors,
    root: u32,
    entries: &Entries,
    around: &Around,
) -> u8
    requires stores { Stores states (places_of neighbors) root entries.now }
    requires below { All (λ s. s < states) around.now.0 }
    ensures { result ≡ follow (nodes_in states (root + 1) entries.now) root
        (inputs_of neighbors around.now.0) }
{
    let [c, n, ne, e, se, s, sw, w, nw] = &around.0;
    match neighbors {
        Neighbors::Four => follow(states, root, entries, &[n, w, e, s, c]),
        Neighbors::Eight => follow(states, root, entries, &[nw, ne, sw, se, n, w, e, s, c]),
    }
}
