//! Marks of a document.
ghost use Rattle.std.specs.Prelude.{◌≡◌};
ghost use Rattle.desk_events.specs.Marks.{bookmark_mark, is_start, mark_at};
ghost use Rattle.desk_events.specs.Needs.{step_to};

use crate::need::Need;
use schedule::Bookmark;

/// A generation of a branch. Between the marks of a document its pattern evolves undisturbed: they
/// are the generations at which bookmarks stand, those at which branches begin and leave others,
/// and those at which interventions act, once or again and again, as far as their branch reaches.
#[derive(Clone, Copy, Debug, PartialEq, Eq)]
pub struct Mark {
    pub branch: u64,
    pub generation: u64,
}

impl Mark {
    /// A generation of a branch.
    pub fn at(branch: u64, generation: u64) -> Mark
        ensures { result ≡ mark_at branch generation }
    {
        Mark { branch, generation }
    }

    /// The mark at which a bookmark stands.
    pub fn of(bookmark: &Bookmark) -> Mark
        ensures { result ≡ bookmark_mark bookmark.now }
    {
        Mark::at(bookmark.branch, bookmark.generation)
    }

    /// Whether it is generation 0 of branch 0, at which the start arrives.
    pub fn is_start(self) -> bool
        ensures { result ≡ is_start self }
    {
        self.branch == 0 && self.generation == 0
    }

    /// The step to the mark.
    pub fn step(self) -> Need
        ensures { result ≡ step_to self }
    {
        Need::Step {
            branch: self.branch,
            mark: self.generation,
        }
    }
}
