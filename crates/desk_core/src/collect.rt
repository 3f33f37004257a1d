//! Answers that come back, and jobs that are given up.
ghost use Rattle.std.specs.Prelude.{◌≡◌, ◌↔◌, IsTrue};
ghost use Rattle.revision_jobs.specs.Entries.{IsOf};
ghost use Rattle.dependency_book.specs.BookState.{row_of};
ghost use Rattle.dependency_book.specs.Called.{IsCancel};
ghost use Rattle.dependency_book.specs.Jobs.{cancelled, IsAnyOut, IsFirstOut, SameBook};
ghost use Rattle.dependency_book.specs.Recalled.{Fills};
ghost use Rattle.dependency_book.specs.Right.{IsRightBook};
ghost use Rattle.desk_events.specs.declared.need.Need.{Need};
ghost use Rattle.desk_core.specs.Collected.{IsCollected, IsEvent, IsOut};

use crate::desk::Desk;
use dependency_book::Filled;
use revision_jobs::Answer;
use step_engine::EvolveFault;

/// What came of an answer.
#[derive(Clone, Copy, Debug, PartialEq, Eq)]
pub enum Collected {
    /// The row that expected the job has the answer's value.
    Accepted,
    /// The job gave up, for this reason, and its row expects nothing any more.
    Released(EvolveFault),
    /// No row expects the job of this number at its place. Nothing changed since; the revision is
    /// the present one.
    Stale { number: u32, revision: u64 },
}

impl Desk<'_> {
    /// Takes an answer of the desk's table, however late it is or how often it comes. Whether a row
    /// expects its job decides, and no comparison of revisions.
    ///
    /// What came of a step is kept beside the rows, and where a row was filled, what is known by
    /// such steps is entered too. Where there is no memory for that nothing is kept or found; an
    /// answer is never refused.
    pub fn collect(&mut self, answer: Answer) -> Collected
        requires own { IsOf self.old.table answer.job.place }
        ensures collected { IsCollected self.old self.new answer result }
        ensures fills { Fills answer self.old self.new }
        ensures book { SameBook self.old self.new }
        ensures event { IsEvent self.old self.new answer result }
        ensures right { IsRightBook self.new }
    {
        let number = answer.number();
        match self.book.fill(answer) {
            Filled::Row => Collected::Accepted,
            Filled::Released(fault) => Collected::Released(fault),
            Filled::NotExpected => Collected::Stale {
                number,
                revision: self.document().revision(),
            },
        }
    }

    /// Gives up the job of this number: the row that expects it expects nothing any more, and
    /// whoever works it is asked to stop. Whether a row expected it. No other row changes.
    pub fn cancel(&mut self, number: u32) -> bool
        ensures was_out { IsTrue result ↔ IsOut self.old number }
        ensures rows { (need : Need) →
            row_of self.new need ≡ cancelled number (row_of self.old need) }
        ensures book { SameBook self.old self.new }
        ensures event { IsCancel number self.old self.new }
        ensures right { IsRightBook self.new }
    {
        let Some(place) = self.book.forget(number) else {
            return false;
        };
        self.entries.raise(&place);
        true
    }

    /// Asks whoever works a job that is out to stop. Its answer is still expected, and nothing that
    /// is known is lost.
    pub fn stop_all(&self)
        ensures right { IsRightBook self.now }
    {
        self.book.stop_all();
    }

    /// Whether a job is out.
    pub fn is_out(&self) -> bool
        ensures { IsAnyOut self.now result }
    {
        self.book.is_out()
    }

    /// The least number of the jobs that are out.
    pub fn first_out(&self) -> Option<u32>
        ensures { IsFirstOut self.now result }
    {
        self.book.first_out()
    }
}
