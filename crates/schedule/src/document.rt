//! The document of an experiment.
ghost use Rattle.std.specs.Prelude.{◌≡◌, IfOk};
ghost use Rattle.std.specs.Arc.{arc_value};
ghost use Rattle.schedule.specs.Branches.{element_at, fork_of, farthest_bookmark, reach};
ghost use Rattle.schedule.specs.Evolution.{is_felt};
ghost use Rattle.schedule.specs.Ids.{branch_id};
ghost use Rattle.schedule.specs.Plan.{opening};
ghost use Rattle.schedule.specs.Sound.{IsSound};

use crate::acts::Acts;
use crate::branch::{Branch, branch_at, farthest_fork, fork_of, is_felt};
use basics::Listing;
use bookmarks::View;
use plane_core::{CellSet, Plane};
use rule_tree::Rule;
use std::alloc::{AllocError, Global};
use std::marker::Model;
use std::sync::Arc;

/// An intervention sets cells of the pattern that has arrived in its branch, at each generation at
/// which it acts.
#[derive(Drop)]
pub struct Intervention {
    pub id: u64,
    pub branch: u64,
    pub acts: Acts,
    pub cells: Listing<CellSet>,
}

/// A view of the pattern at a generation of a branch, after that generation's interventions.
#[derive(Clone, Copy, Debug, PartialEq, Eq)]
pub struct Bookmark {
    pub id: u64,
    pub branch: u64,
    pub generation: u64,
    pub view: View,
}

/// A rule, a start, interventions, bookmarks and branches, and the number of accepted edits since a
/// first revision.
///
/// Interventions, bookmarks and branches stand by rising id. Their ids are counted apart, each from
/// 1, and none is given twice. Branch 0, which begins with the start, is always there and not
/// listed.
pub struct Document {
    pub(crate) rule: Arc<Rule>,
    pub(crate) start: Arc<Plane>,
    pub(crate) interventions: Vec<Intervention>,
    pub(crate) bookmarks: Vec<Bookmark>,
    pub(crate) branches: Vec<Branch>,
    pub(crate) revision: u64,
    pub(crate) last_intervention: u64,
    pub(crate) last_bookmark: u64,
    pub(crate) last_branch: u64,
    pub(crate) alloc: Global,
}

// Written out, as a derived one is proved again in each crate above.
impl Drop for Document {
    fn drop(self) {
        let Document {
            rule: _,
            start: _,
            interventions: _,
            bookmarks: _,
            branches: _,
            revision: _,
            last_intervention: _,
            last_bookmark: _,
            last_branch: _,
            alloc: _,
        } = self;
    }
}

impl Intervention {
    ghost use Rattle.schedule.specs.Scratch.{acts_at};

    /// Whether it acts at this generation of the branch.
    pub fn acts_at(&self, branch: u64, generation: u64) -> bool
        ensures { result ≡ acts_at self.now branch generation }
    {
        self.branch == branch && self.acts.acts_at(generation)
    }

    /// An equal intervention.
    pub(crate) fn copy(&self, alloc: Global) -> Result<Intervention, AllocError>
        ensures { IfOk result (λ intervention. intervention ≡ self.now) }
    {
        Ok(Intervention {
            id: self.id,
            branch: self.branch,
            acts: self.acts,
            cells: self.cells.copy(alloc)?,
        })
    }
}

// Equal interventions.
fn copies(alloc: Global, interventions: &[Intervention]) -> Result<Vec<Intervention>, AllocError>
    ensures { IfOk result (λ copies. copies.items ≡ interventions.now) }
{
    let mut copies = Vec::with_capacity(alloc, interventions.len())?;
    for intervention in interventions {
        copies.push(intervention.copy(alloc)?)?;
    }
    Ok(copies)
}

// The greatest generation of the bookmarks of a branch, and `least` at least.
fn farthest_bookmark(bookmarks: &[Bookmark], branch: u64, least: u64) -> u64
    ensures { result ≡ farthest_bookmark bookmarks.now branch least }
{
    bookmarks.iter().fold(least, |far, bookmark| {
        if bookmark.branch == branch {
            far.max(bookmark.generation)
        } else {
            far
        }
    })
}

impl Model for Document {
    ghost use Rattle.std.specs.Coded.{codes};
    ghost use Rattle.worlds.specs.World.{coded_world};
    ghost use Rattle.schedule.specs.Plan.{Plan};

    ghost Value = { Plan };

    ghost coded = { Prim.hlevel (codes, coded_world) };

    ghost use Rattle.schedule.specs.Kept.{plan_of};
    ghost use Rattle.schedule.specs.Sound.{IsSound};

    ghost view = { plan_of };

    ghost invariant = { λ document. IsSound (plan_of document) };
}

impl Document {
    /// The document that every experiment begins with: the rule `still`, an empty start, and
    /// nothing else. It keeps the limits of documents.
    pub fn opening(alloc: Global, revision: u64) -> Result<Document, AllocError>
        ensures opening { IfOk result (λ document. document ≡ opening revision) }
        ensures sound { IfOk result (λ document. IsSound document) }
    {
        Ok(Document {
            rule: Arc::new(alloc, Rule::still(alloc)?)?,
            start: Arc::new(alloc, Plane::empty(alloc))?,
            interventions: Vec::new(alloc),
            bookmarks: Vec::new(alloc),
            branches: Vec::new(alloc),
            revision,
            last_intervention: 0,
            last_bookmark: 0,
            last_branch: 0,
            alloc,
        })
    }

    /// The same document. Rule and start are shared; interventions, bookmarks and branches are
    /// copied.
    pub fn copy(&self) -> Result<Document, AllocError>
        ensures { IfOk result (λ document. document ≡ self.now) }
    {
        Ok(Document {
            rule: Arc::try_clone(&self.rule)?,
            start: Arc::try_clone(&self.start)?,
            interventions: copies(self.alloc, &self.interventions)?,
            bookmarks: Vec::from_slice(self.alloc, &self.bookmarks)?,
            branches: Vec::from_slice(self.alloc, &self.branches)?,
            revision: self.revision,
            last_intervention: self.last_intervention,
            last_bookmark: self.last_bookmark,
            last_branch: self.last_branch,
            alloc: self.alloc,
        })
    }

    /// The rule.
    pub fn rule(&self) -> &Arc<Rule>
        ensures { arc_value result.now ≡ self.now.rule }
    {
        &self.rule
    }

    /// The pattern of generation 0, before its interventions. What the document says keeps the
    /// limits of documents.
    pub fn start(&self) -> &Arc<Plane>
        ensures start { arc_value result.now ≡ self.now.start }
        ensures sound { IsSound self.now }
    {
        &self.start
    }

    /// The interventions, by rising id.
    pub fn interventions(&self) -> &[Intervention]
        ensures { result.now ≡ self.now.interventions }
    {
        &self.interventions
    }

    /// The bookmarks, by rising id.
    pub fn bookmarks(&self) -> &[Bookmark]
        ensures bookmarks { result.now ≡ self.now.bookmarks }
        ensures sound { IsSound self.now }
    {
        &self.bookmarks
    }

    /// The branches besides 0, by rising id.
    pub fn branches(&self) -> &[Branch]
        ensures branches { result.now ≡ self.now.branches }
        ensures sound { IsSound self.now }
    {
        &self.branches
    }

    /// The branch of this id, if it is listed; branch 0 is not.
    pub fn branch(&self, id: u64) -> Option<Branch>
        ensures { result ≡ element_at branch_id self.now.branches id }
    {
        branch_at(&self.branches, id)
    }

    /// The generation at which the branch leaves its parent; 0 for branch 0.
    pub fn fork(&self, branch: u64) -> u64
        ensures { result ≡ fork_of self.now.branches branch }
    {
        fork_of(&self.branches, branch)
    }

    /// The greatest of the branch's fork, its bookmarks' generations and the forks out of it: no
    /// pattern of the branch is wanted beyond.
    pub fn reach(&self, branch: u64) -> u64
        ensures { result ≡ reach self.now branch }
    {
        let fork = farthest_fork(&self.branches, branch, fork_of(&self.branches, branch));
        farthest_bookmark(&self.bookmarks, branch, fork)
    }

    /// Whether what arrives at a generation of a branch comes of what is laid in the branch
    /// `changed` at the generation `from` or later.
    pub fn is_felt(&self, branch: u64, generation: u64, changed: u64, from: u64) -> bool
        ensures { result ≡ is_felt self.now.branches branch branch generation changed from }
    {
        is_felt(&self.branches, branch, generation, changed, from)
    }

    /// How many edits were accepted, counted from the first revision.
    pub fn revision(&self) -> u64
        ensures { result ≡ self.now.revision }
    {
        self.revision
    }

    /// The id that was given to an intervention last, or 0 before any.
    pub fn last_intervention(&self) -> u64
        ensures { result ≡ self.now.last_intervention }
    {
        self.last_intervention
    }

    /// The id that was given to a bookmark last, or 0 before any.
    pub fn last_bookmark(&self) -> u64
        ensures { result ≡ self.now.last_bookmark }
    {
        self.last_bookmark
    }

    /// The id that was given to a branch last, or 0 before any.
    pub fn last_branch(&self) -> u64
        ensures { result ≡ self.now.last_branch }
    {
        self.last_branch
    }
}
