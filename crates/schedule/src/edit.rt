//! Edits of a document.
ghost use Rattle.std.specs.Prelude.{◌≡◌};

use crate::acts::Acts;
use basics::Listing;
use bookmarks::View;
use plane_core::{CellSet, Plane};
use rule_tree::Rule;
use std::sync::Arc;

/// A change that a user asks for.
#[derive(Drop)]
pub enum Edit {
    /// Adds an intervention to a branch. It acts at generations from the branch's fork to 2^60; one
    /// that repeats does so at a distance of 1 or more, and ends no earlier than it begins. It sets
    /// at most 10,000 cells in `-2^60 <= x, y < 2^60`; the last mention of a cell wins.
    Insert {
        branch: u64,
        acts: Acts,
        cells: Listing<CellSet>,
    },
    /// Makes the intervention of this id act at these generations of its branch, with these cells
    /// and the same limits.
    Change {
        id: u64,
        acts: Acts,
        cells: Listing<CellSet>,
    },
    /// Removes the intervention of this id, which isn't given again.
    RemoveIntervention {
        id: u64,
    },
    /// Sets cells of the start, at most 10,000 in `-2^60 <= x, y < 2^60`; the last mention of a
    /// cell wins.
    SetCells {
        cells: Listing<CellSet>,
    },
    /// Takes another start, whose live cells lie in `-2^60 <= x, y < 2^60` and have states of the
    /// rule.
    ReplaceStart(Arc<Plane>),
    /// Takes another rule, whose states are enough for the start and for all interventions.
    ReplaceRule(Arc<Rule>),
    /// Adds a bookmark to a branch, at a generation from the branch's fork to 2^60. A window has 1
    /// to 65,536 cells, all of them in `-2^61 <= x, y < 2^61`.
    AddBookmark {
        branch: u64,
        generation: u64,
        view: View,
    },
    /// Moves the bookmark of this id to a generation from its branch's fork to 2^60.
    MoveBookmark {
        id: u64,
        generation: u64,
    },
    /// Removes the bookmark of this id, which isn't given again.
    RemoveBookmark {
        id: u64,
    },
    /// Adds a branch that leaves its parent at a generation from the parent's fork to 2^60, after
    /// that generation's interventions.
    AddBranch {
        parent: u64,
        generation: u64,
    },
    /// Removes the branch, whose id isn't given again. It has no intervention and no bookmark, and
    /// no branch leaves it; branch 0 stays.
    RemoveBranch {
        branch: u64,
    },
}

impl Edit {
    /// Adds an intervention that acts once, at this generation, to a branch.
    pub fn insert_intervention(branch: u64, generation: u64, cells: Listing<CellSet>) -> Edit
        ensures { result ≡ Edit.Insert branch (Acts.Once generation) cells }
    {
        Edit::Insert {
            branch,
            acts: Acts::once(generation),
            cells,
        }
    }

    /// Adds an intervention that acts at `first + i * every` for each i from 0, up to `last`.
    pub fn insert_repeat(
        branch: u64,
        first: u64,
        every: u64,
        last: u64,
        cells: Listing<CellSet>,
    ) -> Edit
        ensures { result ≡ Edit.Insert branch (Acts.Every first every last) cells }
    {
        Edit::Insert {
            branch,
            acts: Acts::every(first, every, last),
            cells,
        }
    }

    /// Makes the intervention of this id act once, at this generation.
    pub fn change_intervention(id: u64, generation: u64, cells: Listing<CellSet>) -> Edit
        ensures { result ≡ Edit.Change id (Acts.Once generation) cells }
    {
        Edit::Change {
            id,
            acts: Acts::once(generation),
            cells,
        }
    }

    /// Makes the intervention of this id act at `first + i * every` for each i from 0, up to
    /// `last`.
    pub fn change_repeat(
        id: u64,
        first: u64,
        every: u64,
        last: u64,
        cells: Listing<CellSet>,
    ) -> Edit
        ensures { result ≡ Edit.Change id (Acts.Every first every last) cells }
    {
        Edit::Change {
            id,
            acts: Acts::every(first, every, last),
            cells,
        }
    }
}

/// What an accepted edit answers.
#[derive(Clone, Copy, Debug, PartialEq, Eq)]
pub struct Edited {
    /// The document's revision after the edit.
    pub revision: u64,
    /// The id of the intervention, bookmark or branch that the edit made, if it made one.
    pub id: Option<u64>,
}
