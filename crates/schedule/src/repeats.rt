//! How many marks repeating interventions make, in a document as it would be after an edit.
//!
//! Each count is by division and takes no memory. A sum that no longer fits stays at u64::MAX, far
//! above the limit. Repeating interventions of one branch in a row cost one pass over the bookmarks
//! together, since the reach of the branch that was looked at last is kept.
ghost use Rattle.std.specs.Prelude.{◌≡◌, ◌+◌, ◌-◌, ◌^◌, min, if◌then◌else◌, ◌==◌};
ghost use Rattle.schedule.specs.Acts.{marks_to};
ghost use Rattle.schedule.specs.Branches.{reach};
ghost use Rattle.std.specs.Prelude.{List};
ghost use Rattle.worlds.specs.declared.cell.CellSet.{CellSet};
ghost use Rattle.bookmarks.specs.declared.view.View.{View};
ghost use Rattle.schedule.specs.Change.{with_intervention, with_changed_intervention};
ghost use Rattle.schedule.specs.Change.{changed_bookmarks, with_moved_bookmark, with_branch};
ghost use Rattle.schedule.specs.Sound.{IsSound};
ghost use Rattle.schedule.specs.Repeats.{reach_with, capped_marks, capped_changed};
ghost use Rattle.schedule.specs.Repeats.{has_too_many_marks};
ghost use Rattle.schedule.specs.Tally.{with_marks, tally_with, tally_changed, tally_moved};

use crate::acts::Acts;
use crate::branch::{farthest_fork, fork_of};
use crate::document::{Document, Intervention};

/// The repeating interventions of a document make at most this many marks together; an edit after
/// which they would make more is refused. `specs/Repeats.antt` has the number as `most_marks`.
pub const MOST_MARKS: u64 = 8192;

// The sum with the marks that what acts then makes in a branch of this reach.
fn add_marks(sum: u64, acts: Acts, reach: u64) -> u64
    ensures { result ≡ min (sum + marks_to reach acts) (2 ^ 64 - 1) }
{
    sum.saturating_add(acts.marks_to(reach))
}

// Marks that were counted, and the reach of the branch that was looked at last.
#[derive(Clone, Copy)]
struct Tally {
    marks: u64,
    branch: u64,
    reach: u64,
}

impl Tally {
    // With the marks that what acts then makes in a branch of this reach.
    fn with(&self, branch: u64, reach: u64, acts: Acts) -> Tally
        ensures { result ≡ with_marks self.now branch reach acts }
    {
        Tally {
            marks: add_marks(self.marks, acts, reach),
            branch,
            reach,
        }
    }
}

impl Intervention {
    // When it acts, if the one of an id acts then.
    fn acts_if_changed(&self, id: u64, acts: Acts) -> Acts
        ensures { result ≡ (if self.now.id == id then acts else self.now.acts) }
    {
        if self.id == id { acts } else { self.acts }
    }
}

impl Document {
    // The marks if `branch` reaches to `least` at least.
    fn marks_with(&self, branch: u64, least: u64) -> u64
        ensures marks { result
            ≡ capped_marks (reach_with self.now branch least) self.now.interventions }
        ensures sound { IsSound self.now }
    {
        self.tally_with(branch, least).marks
    }

    // These marks, with the reach of the branch that was looked at last.
    fn tally_with(&self, branch: u64, least: u64) -> Tally
        ensures tally { result ≡ tally_with self.now branch least }
        ensures sound { IsSound self.now }
    {
        let reach = self.reach_with(branch, branch, least);
        let none = Tally {
            marks: 0,
            branch,
            reach,
        };
        self.interventions.iter().fold(none, |tally, intervention| {
            if intervention.acts.repeats() {
                let reach = if tally.branch == intervention.branch {
                    tally.reach
                } else {
                    self.reach_with(intervention.branch, branch, least)
                };
                tally.with(intervention.branch, reach, intervention.acts)
            } else {
                tally
            }
        })
    }

    // The reach of a branch if `extended` reaches to `least` at least.
    fn reach_with(&self, branch: u64, extended: u64, least: u64) -> u64
        ensures { result ≡ reach_with self.now extended least branch }
    {
        let reach = self.reach(branch);
        if extended == branch {
            reach.max(least)
        } else {
            reach
        }
    }

    // The marks if the intervention of an id acts then.
    fn marks_changed(&self, id: u64, acts: Acts) -> u64
        ensures { result ≡ capped_changed (reach self.now) id acts self.now.interventions }
    {
        self.tally_changed(id, acts).marks
    }

    // These marks, with the reach of the branch that was looked at last.
    fn tally_changed(&self, id: u64, acts: Acts) -> Tally
        ensures { result ≡ tally_changed self.now id acts }
    {
        let none = Tally {
            marks: 0,
            branch: 0,
            reach: self.reach(0),
        };
        self.interventions.iter().fold(none, |tally, intervention| {
            let acts = intervention.acts_if_changed(id, acts);
            if acts.repeats() {
                let reach = if tally.branch == intervention.branch {
                    tally.reach
                } else {
                    self.reach(intervention.branch)
                };
                tally.with(intervention.branch, reach, acts)
            } else {
                tally
            }
        })
    }

    // The marks if the bookmark of an id stands at this generation.
    fn marks_moved(&self, id: u64, generation: u64) -> u64
        ensures { result ≡ capped_marks
            (reach (with_moved_bookmark self.now id generation).plan) self.now.interventions }
    {
        self.tally_moved(id, generation).marks
    }

    // These marks, with the reach of the branch that was looked at last.
    fn tally_moved(&self, id: u64, generation: u64) -> Tally
        ensures { result ≡ tally_moved self.now id generation }
    {
        let none = Tally {
            marks: 0,
            branch: 0,
            reach: self.reach_moved(0, id, generation),
        };
        self.interventions.iter().fold(none, |tally, intervention| {
            if intervention.acts.repeats() {
                let reach = if tally.branch == intervention.branch {
                    tally.reach
                } else {
                    self.reach_moved(intervention.branch, id, generation)
                };
                tally.with(intervention.branch, reach, intervention.acts)
            } else {
                tally
            }
        })
    }

    // The reach of a branch if the bookmark of an id stands at this generation.
    fn reach_moved(&self, branch: u64, id: u64, generation: u64) -> u64
        ensures { result ≡ reach (with_moved_bookmark self.now id generation).plan branch }
    {
        let fork = farthest_fork(&self.branches, branch, fork_of(&self.branches, branch));
        self.bookmarks.iter().fold(fork, |far, bookmark| {
            let stands = if bookmark.id == id {
                generation
            } else {
                bookmark.generation
            };
            if bookmark.branch == branch {
                far.max(stands)
            } else {
                far
            }
        })
    }

    // Whether one more intervention that acts then makes too many marks.
    pub(crate) fn crowds(&self, branch: u64, acts: Acts) -> bool
        ensures { (cells : List CellSet) → result
            ≡ has_too_many_marks (with_intervention self.now branch acts cells).plan }
    {
        let marks = self.marks_with(branch, 0);
        add_marks(marks, acts, self.reach(branch)) > MOST_MARKS
    }

    // Whether there are too many marks if the intervention of an id acts then.
    pub(crate) fn crowds_changed(&self, id: u64, acts: Acts) -> bool
        ensures { (cells : List CellSet) → result
            ≡ has_too_many_marks (with_changed_intervention self.now id acts cells).plan }
    {
        self.marks_changed(id, acts) > MOST_MARKS
    }

    // Whether there are too many marks if the bookmark of an id stands at this generation.
    pub(crate) fn crowds_moved(&self, id: u64, generation: u64) -> bool
        ensures { result ≡ has_too_many_marks (with_moved_bookmark self.now id generation).plan }
    {
        self.marks_moved(id, generation) > MOST_MARKS
    }

    // Whether there are too many marks with a bookmark at this generation of a branch.
    pub(crate) fn crowds_marked(&self, branch: u64, generation: u64) -> bool
        ensures { (view : View) → result
            ≡ has_too_many_marks (changed_bookmarks self.now branch generation view).plan }
    {
        self.marks_with(branch, generation) > MOST_MARKS
    }

    // Whether there are too many marks with a branch that leaves this parent at this generation.
    pub(crate) fn crowds_forked(&self, parent: u64, generation: u64) -> bool
        ensures { result ≡ has_too_many_marks (with_branch self.now parent generation).plan }
    {
        self.marks_with(parent, generation) > MOST_MARKS
    }
}
