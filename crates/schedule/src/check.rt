//! Whether an edit fits a document.
ghost use Rattle.std.specs.Prelude.{◌≡◌, ◌<◌};
ghost use Rattle.schedule.specs.Asked.{asked_of};
ghost use Rattle.schedule.specs.Change.{is_named, may_be_named, stay_in_range, set_below, lies_near};
ghost use Rattle.schedule.specs.Change.{lies_below, all_set_below, refusals, Checks, spent};
ghost use Rattle.schedule.specs.Change.{for_cells, for_start, for_rule, for_bookmark};
ghost use Rattle.schedule.specs.Change.{for_intervention, for_changed_intervention};
ghost use Rattle.schedule.specs.Change.{for_removed_intervention};
ghost use Rattle.schedule.specs.Change.{for_moved_bookmark, for_removed_bookmark};
ghost use Rattle.schedule.specs.Change.{for_branch, for_removed_branch, is_in_use};
ghost use Rattle.schedule.specs.Branches.{has_interventions, has_bookmarks, element_at};
ghost use Rattle.std.specs.Option.{option_map};
ghost use Rattle.schedule.specs.Ids.{has_id, intervention_id, bookmark_id};
ghost use Rattle.schedule.specs.Near.{box_near};
ghost use Rattle.std.specs.Prelude.{[], true};
ghost use Rattle.schedule.specs.Change.{acts_too_far, is_bad_repeat, for_cells_before};
ghost use Rattle.schedule.specs.Change.{for_marks, for_inserted, for_changed, for_view};
ghost use Rattle.schedule.specs.Change.{with_moved_bookmark, with_branch};

use crate::acts::Acts;
use crate::branch::{fork_of, has_branch, has_children};
use crate::document::{Bookmark, Document, Intervention};
use crate::edit::Edit;
use crate::fault::EditFault;
use basics::Listing;
use bookmarks::View;
use plane_core::{Bounds, CellSet, Next, Plane};
use rule_tree::Rule;

/// The generation of an intervention or a bookmark is at most this.
pub const FARTHEST_GENERATION: u64 = 1 << 60;

/// There are at most this many interventions.
pub const MOST_INTERVENTIONS: usize = 4096;

/// There are at most this many bookmarks.
pub const MOST_BOOKMARKS: usize = 4096;

/// There are at most this many branches besides 0.
pub const MOST_BRANCHES: usize = 64;

/// One edit names at most this many cells.
pub const MOST_CELLS: usize = 10_000;

// Named cells have coordinates from -2^60 up to but not including 2^60.
const NAMED_REACH: i64 = 1 << 60;

// Whether a named cell may have this coordinate.
fn is_named(coordinate: i64) -> bool
    ensures { result ≡ is_named coordinate }
{
    -NAMED_REACH <= coordinate && coordinate < NAMED_REACH
}

// Whether an edit may name the cell, by its place.
fn may_be_named(cell: &CellSet) -> bool
    ensures { result ≡ may_be_named cell.now }
{
    is_named(cell.x) && is_named(cell.y)
}

// Whether an edit may name each cell.
fn stay_in_range(cells: &[CellSet]) -> bool
    ensures { result ≡ stay_in_range cells.now }
{
    cells.iter().all(may_be_named)
}

// Whether each cell's state is below `states`.
fn set_below(states: u16, cells: &[CellSet]) -> bool
    ensures { result ≡ set_below states cells.now }
{
    cells.iter().all(|cell| cell.state < states)
}

// Whether the box lies where edits may name cells.
fn box_near(bounds: &Bounds) -> bool
    ensures { result ≡ box_near bounds.now }
{
    -NAMED_REACH <= bounds.left
        && bounds.right < NAMED_REACH
        && (-NAMED_REACH <= bounds.top && bounds.bottom < NAMED_REACH)
}

// Whether each live cell lies where an edit may name it.
fn lies_near(plane: &Plane) -> bool
    ensures { result ≡ lies_near plane.now }
{
    match plane.bounds() {
        None => true,
        Some(bounds) => box_near(&bounds),
    }
}

// Whether each state of the plane is below `states`.
fn lies_below(states: u16, plane: &Plane) -> bool
    requires { 0 < states }
    ensures { result ≡ lies_below states plane.now }
{
    u16::from(plane.greatest()) < states
}

// Whether each intervention sets states below `states` alone.
fn all_set_below(states: u16, interventions: &[Intervention]) -> bool
    ensures { result ≡ all_set_below states interventions.now }
{
    interventions.iter().all(|intervention| set_below(states, intervention.cells.as_slice()))
}

// Whether an intervention would act beyond the farthest generation.
fn acts_too_far(acts: Acts) -> bool
    ensures { result ≡ acts_too_far acts }
{
    match acts {
        Acts::Once { generation } => generation > FARTHEST_GENERATION,
        Acts::Every { first, last, .. } => {
            first > FARTHEST_GENERATION || last > FARTHEST_GENERATION
        }
    }
}

// Whether it would repeat at a distance of 0, or end before it begins.
fn is_bad_repeat(acts: Acts) -> bool
    ensures { result ≡ is_bad_repeat acts }
{
    match acts {
        Acts::Once { .. } => false,
        Acts::Every { first, every, last } => every == 0 || last < first,
    }
}

impl Document {
    /// Whether the edit fits the document: Ok, or the first refusal of its kind. It takes no
    /// memory, and NoMemory isn't among its answers.
    pub fn check(&self, edit: &Edit) -> Result<(), EditFault>
        ensures { Checks result (refusals self.now (asked_of edit.now)) }
    {
        match edit {
            Edit::Insert {
                branch,
                acts,
                cells,
            } => self.check_intervention(*branch, *acts, cells),
            Edit::Change { id, acts, cells } => self.check_changed_intervention(*id, *acts, cells),
            Edit::RemoveIntervention { id } => self.check_removed_intervention(*id),
            Edit::SetCells { cells } => self.check_cells(cells.as_slice()),
            Edit::ReplaceStart(start) => self.check_start(start),
            Edit::ReplaceRule(rule) => self.check_rule(rule),
            Edit::AddBookmark {
                branch,
                generation,
                view,
            } => self.check_bookmark(*branch, *generation, view),
            Edit::MoveBookmark { id, generation } => self.check_moved_bookmark(*id, *generation),
            Edit::RemoveBookmark { id } => self.check_removed_bookmark(*id),
            Edit::AddBranch { parent, generation } => self.check_branch(*parent, *generation),
            Edit::RemoveBranch { branch } => self.check_removed_branch(*branch),
        }
    }

    // Whether there is an intervention of this id.
    fn has_intervention(&self, id: u64) -> bool
        ensures { result ≡ has_id intervention_id self.now.interventions id }
    {
        self.interventions
            .iter()
            .any(|intervention| intervention.id == id)
    }

    // Whether there is a bookmark of this id.
    fn has_bookmark(&self, id: u64) -> bool
        ensures { result ≡ has_id bookmark_id self.now.bookmarks id }
    {
        self.bookmarks.iter().any(|bookmark| bookmark.id == id)
    }

    // Whether a branch has an intervention.
    fn has_interventions(&self, branch: u64) -> bool
        ensures { result ≡ has_interventions self.now.interventions branch }
    {
        self.interventions
            .iter()
            .any(|intervention| intervention.branch == branch)
    }

    // Whether a branch has a bookmark.
    fn has_bookmarks(&self, branch: u64) -> bool
        ensures { result ≡ has_bookmarks self.now.bookmarks branch }
    {
        self.bookmarks
            .iter()
            .any(|bookmark| bookmark.branch == branch)
    }

    // The intervention of this id, if there is one.
    fn intervention_at(&self, id: u64) -> Option<&Intervention>
        ensures { option_map (λ i. i.now) result
            ≡ element_at intervention_id self.now.interventions id }
    {
        self.interventions
            .iter()
            .find(|intervention| intervention.id == id)
    }

    // The bookmark of this id, if there is one.
    fn bookmark_at(&self, id: u64) -> Option<Bookmark>
        ensures { result ≡ element_at bookmark_id self.now.bookmarks id }
    {
        self.bookmarks
            .iter()
            .copied()
            .find(|bookmark| bookmark.id == id)
    }

    // Whether the document may get an intervention in a branch that acts then, with these cells.
    fn check_intervention(
        &self,
        branch: u64,
        acts: Acts,
        cells: &Listing<CellSet>,
    ) -> Result<(), EditFault>
        ensures { Checks result (for_intervention self.now branch acts cells.now) }
    {
        if !has_branch(&self.branches, branch) {
            return Err(EditFault::NoSuchBranch);
        }
        if acts_too_far(acts) {
            return Err(EditFault::GenerationTooFar);
        }
        if is_bad_repeat(acts) {
            return Err(EditFault::BadRepeat);
        }
        if acts.first() < fork_of(&self.branches, branch) {
            return Err(EditFault::BeforeFork);
        }
        if self.interventions.len() >= MOST_INTERVENTIONS {
            return Err(EditFault::TooManyInterventions);
        }
        self.check_inserted(branch, acts, cells.as_slice())
    }

    // Whether an edit may name these cells, and the marks leave room for one more intervention that
    // acts then.
    fn check_inserted(&self, branch: u64, acts: Acts, cells: &[CellSet]) -> Result<(), EditFault>
        ensures { Checks result (for_cells_before self.now cells.now
            (for_inserted self.now branch acts cells.now)) }
    {
        self.check_named(cells)?;
        if acts.repeats() && self.crowds(branch, acts) {
            return Err(EditFault::TooManyMarks);
        }
        self.check_revision()
    }

    // Whether the intervention of this id may act then, with these cells.
    fn check_changed_intervention(
        &self,
        id: u64,
        acts: Acts,
        cells: &Listing<CellSet>,
    ) -> Result<(), EditFault>
        ensures { Checks result (for_changed_intervention self.now id acts cells.now) }
    {
        let Some(intervention) = self.intervention_at(id) else {
            return Err(EditFault::NoSuchIntervention);
        };
        if acts_too_far(acts) {
            return Err(EditFault::GenerationTooFar);
        }
        if is_bad_repeat(acts) {
            return Err(EditFault::BadRepeat);
        }
        if acts.first() < fork_of(&self.branches, intervention.branch) {
            return Err(EditFault::BeforeFork);
        }
        self.check_changed(id, acts, cells.as_slice())
    }

    // Whether an edit may name these cells, and the marks leave room for the intervention of an id
    // to act then.
    fn check_changed(&self, id: u64, acts: Acts, cells: &[CellSet]) -> Result<(), EditFault>
        ensures { Checks result (for_cells_before self.now cells.now
            (for_changed self.now id acts cells.now)) }
    {
        self.check_named(cells)?;
        if !acts.repeats() {
            return self.check_revision();
        }
        if self.crowds_changed(id, acts) {
            return Err(EditFault::TooManyMarks);
        }
        self.check_revision()
    }

    // Whether the intervention of this id may be removed.
    fn check_removed_intervention(&self, id: u64) -> Result<(), EditFault>
        ensures { Checks result (for_removed_intervention self.now id) }
    {
        if !self.has_intervention(id) {
            return Err(EditFault::NoSuchIntervention);
        }
        self.check_revision()
    }

    // Whether the bookmark of this id may move to this generation.
    fn check_moved_bookmark(&self, id: u64, generation: u64) -> Result<(), EditFault>
        ensures { Checks result (for_moved_bookmark self.now id generation) }
    {
        let Some(bookmark) = self.bookmark_at(id) else {
            return Err(EditFault::NoSuchBookmark);
        };
        if generation > FARTHEST_GENERATION {
            return Err(EditFault::GenerationTooFar);
        }
        if generation < fork_of(&self.branches, bookmark.branch) {
            return Err(EditFault::BeforeFork);
        }
        self.check_moved(id, generation)
    }

    // Whether the marks leave room for the bookmark of an id at this generation.
    fn check_moved(&self, id: u64, generation: u64) -> Result<(), EditFault>
        ensures { Checks result
            (for_marks true self.now (with_moved_bookmark self.now id generation).plan) }
    {
        if self.crowds_moved(id, generation) {
            return Err(EditFault::TooManyMarks);
        }
        self.check_revision()
    }

    // Whether the bookmark of this id may be removed.
    fn check_removed_bookmark(&self, id: u64) -> Result<(), EditFault>
        ensures { Checks result (for_removed_bookmark self.now id) }
    {
        if !self.has_bookmark(id) {
            return Err(EditFault::NoSuchBookmark);
        }
        self.check_revision()
    }

    // Whether one more revision fits.
    fn check_revision(&self) -> Result<(), EditFault>
        ensures { Checks result (spent self.now) }
    {
        if self.revision == u64::MAX {
            return Err(EditFault::RevisionSpent);
        }
        Ok(())
    }

    // Whether the start may get these cells.
    fn check_cells(&self, cells: &[CellSet]) -> Result<(), EditFault>
        ensures { Checks result (for_cells self.now cells.now) }
    {
        self.check_named(cells)?;
        self.check_revision()
    }

    // Whether an edit may name these cells.
    fn check_named(&self, cells: &[CellSet]) -> Result<(), EditFault>
        ensures { Checks result (for_cells_before self.now cells.now []) }
    {
        if cells.len() > MOST_CELLS {
            return Err(EditFault::TooManyCells);
        }
        if !stay_in_range(cells) {
            return Err(EditFault::CellOutOfRange);
        }
        if !set_below(self.rule.states(), cells) {
            return Err(EditFault::CellStateTooHigh);
        }
        Ok(())
    }

    // Whether the document may get this start.
    fn check_start(&self, start: &Plane) -> Result<(), EditFault>
        ensures { Checks result (for_start self.now start.now) }
    {
        if !lies_near(start) {
            return Err(EditFault::CellOutOfRange);
        }
        if !lies_below(self.rule.states(), start) {
            return Err(EditFault::CellStateTooHigh);
        }
        self.check_revision()
    }

    // Whether the document may get this rule.
    fn check_rule(&self, rule: &Rule) -> Result<(), EditFault>
        ensures { Checks result (for_rule self.now rule.now) }
    {
        let states = rule.states();
        if !lies_below(states, &self.start) || !all_set_below(states, &self.interventions) {
            return Err(EditFault::CellStateTooHigh);
        }
        self.check_revision()
    }

    // Whether the document may get a bookmark with this view at this generation of a branch.
    fn check_bookmark(&self, branch: u64, generation: u64, view: &View) -> Result<(), EditFault>
        ensures { Checks result (for_bookmark self.now branch generation view.now) }
    {
        if !has_branch(&self.branches, branch) {
            return Err(EditFault::NoSuchBranch);
        }
        if generation > FARTHEST_GENERATION {
            return Err(EditFault::GenerationTooFar);
        }
        if generation < fork_of(&self.branches, branch) {
            return Err(EditFault::BeforeFork);
        }
        if self.bookmarks.len() >= MOST_BOOKMARKS {
            return Err(EditFault::TooManyBookmarks);
        }
        self.check_marked(branch, generation, view)
    }

    // Whether a bookmark may have this view, and the marks leave room for it at this generation of
    // a branch.
    fn check_marked(&self, branch: u64, generation: u64, view: &View) -> Result<(), EditFault>
        ensures { Checks result (for_view self.now branch generation view.now) }
    {
        if !view.has_window_size() {
            return Err(EditFault::BadWindow);
        }
        if !view.lies_in_range() {
            return Err(EditFault::CellOutOfRange);
        }
        if self.crowds_marked(branch, generation) {
            return Err(EditFault::TooManyMarks);
        }
        self.check_revision()
    }

    // Whether the document may get a branch that leaves this parent at this generation.
    fn check_branch(&self, parent: u64, generation: u64) -> Result<(), EditFault>
        ensures { Checks result (for_branch self.now parent generation) }
    {
        if !has_branch(&self.branches, parent) {
            return Err(EditFault::NoSuchBranch);
        }
        if generation > FARTHEST_GENERATION {
            return Err(EditFault::GenerationTooFar);
        }
        if generation < fork_of(&self.branches, parent) {
            return Err(EditFault::BeforeFork);
        }
        if self.branches.len() >= MOST_BRANCHES {
            return Err(EditFault::TooManyBranches);
        }
        self.check_forked(parent, generation)
    }

    // Whether the marks leave room for a branch that leaves this parent at this generation.
    fn check_forked(&self, parent: u64, generation: u64) -> Result<(), EditFault>
        ensures { Checks result
            (for_marks true self.now (with_branch self.now parent generation).plan) }
    {
        if self.crowds_forked(parent, generation) {
            return Err(EditFault::TooManyMarks);
        }
        self.check_revision()
    }

    // Whether this branch may not be removed.
    fn is_in_use(&self, branch: u64) -> bool
        ensures { result ≡ is_in_use self.now branch }
    {
        branch == 0
            || self.has_interventions(branch)
            || (self.has_bookmarks(branch) || has_children(&self.branches, branch))
    }

    // Whether this branch may be removed.
    fn check_removed_branch(&self, branch: u64) -> Result<(), EditFault>
        ensures { Checks result (for_removed_branch self.now branch) }
    {
        if !has_branch(&self.branches, branch) {
            return Err(EditFault::NoSuchBranch);
        }
        if self.is_in_use(branch) {
            return Err(EditFault::BranchInUse);
        }
        self.check_revision()
    }
}
