//! Jobs for the rows of a book, and what their answers change.
ghost use Rattle.std.specs.Prelude.{◌≡◌, MatchOption, IfSome, OnErr, OnOk};
ghost use Rattle.std.specs.Arc.{arc_value};
ghost use Rattle.revision_jobs.specs.Answer.{IsRightAnswer, outcome_of, result_in};
ghost use Rattle.revision_jobs.specs.Entries.{IsOf};
ghost use Rattle.revision_jobs.specs.Value.{pattern, text};
ghost use Rattle.dependency_book.specs.declared.row.RowState.TheVariants.{Empty, Expected, Known};
ghost use Rattle.dependency_book.specs.RowState.{state_map};
ghost use Rattle.dependency_book.specs.Jobs.{cancelled, given_by};
ghost use Rattle.dependency_book.specs.Jobs.{IsAnyOut, IsFilled, IsFirstOut, IsForgotten};
ghost use Rattle.dependency_book.specs.Jobs.{Expects, IsNextJob, NoneExpects, SameBook};
ghost use Rattle.dependency_book.specs.Jobs.{SameDocument};
ghost use Rattle.desk_events.specs.Needs.{step_to};
ghost use Rattle.dependency_book.specs.BookState.{given_of, row_of, with_refusal};
ghost use Rattle.dependency_book.specs.Called.{IsCancel, IsCollect, IsIssue, TakesAnswer};
ghost use Rattle.dependency_book.specs.Recalled.{EntersOrFrees, Fills};
ghost use Rattle.dependency_book.specs.Right.{IsRightBook};
ghost use Rattle.dependency_book.specs.Puts.{CanBePut, PutsRow, filled_by};

use crate::arrival::Arrival;
use crate::book::Book;
use crate::filled::Filled;
use crate::row::{Key, RowState, any_out, least_out, lesser, put, raise_all, row_for};
use crate::shared_text::SharedText;
use desk_events::{Mark, Need};
use revision_jobs::{Answer, Job, Outcome, Parts, Place};
use schedule::{Listing, Plane};
use std::alloc::AllocError;
use std::sync::Arc;

impl Book<'_> {
    /// How many numbers of jobs were given.
    pub fn given(&self) -> u32
        ensures { result ≡ given_of self.now }
    {
        self.issued.len() as u32
    }

    /// Notes that a job is out for what is needed next. Its number is the next that is given, which
    /// is below 16,777,216, and its entry is what is to be computed for the row. Refused, nothing
    /// changes.
    pub fn expect(&mut self, need: &Need, job: Job) -> Result<(), AllocError>
        requires { IsNextJob self.old need.now job }
        ensures issued { OnOk result (IsIssue need.now job self.old self.new) }
        ensures unchanged { OnErr result (self.new ≡ self.old) }
        ensures right { IsRightBook self.new }
    {
        self.issued.push(job.place.share())?;
        self.await_job(need, job);
        Ok(())
    }

    /// Notes that an issue was refused, since memory ran out. Clauses alone count it.
    pub fn note_refusal(&mut self, _refused: AllocError)
        ensures noted { self.new ≡ with_refusal self.old }
        ensures right { IsRightBook self.new }
    {
        self.refused.note();
    }

    // Notes in the row of a need that a job is out, whose number was given last.
    fn await_job(&mut self, need: &Need, job: Job)
        requires { CanBePut self.old need.now (Expected job) }
        ensures row { PutsRow need.now (Expected job) self.old self.new }
        ensures right { IsRightBook self.new }
    {
        match need {
            Need::Step { branch, mark } => {
                self.put_arrival(Mark::at(*branch, *mark), RowState::Expected(job));
            }
            Need::View { id } => self.put_text(*id, RowState::Expected(job)),
        }
    }

    /// Takes an answer of the book's table. Where a row expects its job, the row has the answer's
    /// value, or expects nothing any more where the job gave up. What came of a step is kept, also
    /// where no row expects it any more.
    ///
    /// Where a row was filled, what is known by steps that were computed before is entered too,
    /// where nothing is known and no job is out. No other row changes. Where memory is wanting for
    /// keeping or looking, nothing is kept or found.
    pub fn fill(&mut self, answer: Answer) -> Filled
        requires own { IsOf self.old.table answer.job.place }
        ensures filled { IsFilled self.old self.new answer result }
        ensures fills { Fills answer self.old self.new }
        ensures entered { EntersOrFrees self.old self.new answer result }
        ensures book { SameBook self.old self.new }
        ensures event { IsCollect answer self.old self.new result }
        ensures right { IsRightBook self.new }
    {
        let parts = answer.into_parts();
        self.keep_fact(&parts);
        let filled = self.take(parts);
        if matches!(filled, Filled::Row) {
            self.recall_all();
        }
        filled
    }

    // Puts what came of a job in the row that expects it, if one does.
    fn take(&mut self, parts: Parts) -> Filled
        requires own { IsOf self.old.table parts.job.place }
        requires right { IsRightAnswer parts.job parts.limit (outcome_of parts.outcome) }
        ensures takes { TakesAnswer (result_in parts) self.old self.new result }
        ensures right { IsRightBook self.new }
    {
        let Parts { job, outcome, .. } = parts;
        match self.expecting(job.number) {
            Some((need, place)) if self.entries.same(place, &job.place) => {
                self.fill_row(need, outcome)
            }
            _ => Filled::NotExpected,
        }
    }

    /// Expects the job of this number no more, and gives the place of its entry, where a row
    /// expects it. No other row changes.
    pub fn forget(&mut self, number: u32) -> Option<Place>
        ensures place { IsForgotten self.old number result }
        ensures rows { (need : Need) →
            row_of self.new need ≡ cancelled number (row_of self.old need) }
        ensures book { SameBook self.old self.new }
        ensures event { IsCancel number self.old self.new }
        ensures right { IsRightBook self.new }
    {
        let (need, place) = self.expecting(number)?;
        let place = place.share();
        self.release(need);
        Some(place)
    }

    /// Whether a job is out.
    pub fn is_out(&self) -> bool
        ensures { IsAnyOut self.now result }
    {
        any_out(&self.arrivals) || any_out(&self.texts)
    }

    /// Asks whoever works a job that is out to stop. Its answer is still expected.
    pub fn stop_all(&self)
        ensures right { IsRightBook self.now }
    {
        raise_all(self.entries, &self.arrivals);
        raise_all(self.entries, &self.texts);
    }

    /// The least number of the jobs that are out.
    pub fn first_out(&self) -> Option<u32>
        ensures { IsFirstOut self.now result }
    {
        lesser(least_out(&self.arrivals), least_out(&self.texts))
    }

    // The need whose row expects the job of this number, with the place of the job's entry.
    fn expecting(&self, number: u32) -> Option<(Need, &Place)>
        ensures row { MatchOption result (NoneExpects self.now number)
            (λ row. Expects self.now number row.0 row.1.now) }
        ensures own { IfSome result (λ row. IsOf self.now.table row.1.now) }
        ensures right { IsRightBook self.now }
    {
        if let Some((mark, place)) = row_for(&self.arrivals, number) {
            return Some((mark.step(), place));
        }
        let (bookmark, place) = row_for(&self.texts, number)?;
        Some((Need::View { id: bookmark.id }, place))
    }

    // Puts an outcome in the row of a need: a value, or nothing where there is none.
    fn fill_row(&mut self, need: Need, outcome: Outcome) -> Filled
        requires { CanBePut self.old need (given_by (outcome_of outcome)) }
        ensures filled { result ≡ filled_by (outcome_of outcome) }
        ensures row { PutsRow need (given_by (outcome_of outcome)) self.old self.new }
        ensures right { IsRightBook self.new }
    {
        match outcome {
            Outcome::Plane(plane) => self.put_plane(need, plane),
            Outcome::Text(text) => self.put_bytes(need, text),
            Outcome::Gave(fault) => {
                self.release(need);
                return Filled::Released(fault);
            }
        }
        Filled::Row
    }

    // Puts a pattern in the row of a need, which is a step.
    fn put_plane(&mut self, need: Need, plane: Arc<Plane>)
        requires { CanBePut self.old need (Known (pattern (arc_value plane))) }
        ensures row { PutsRow need (Known (pattern (arc_value plane))) self.old self.new }
        ensures right { IsRightBook self.new }
    {
        let Need::Step { branch, mark } = need else {
            unreachable!("a view has a text")
        };
        self.put_arrival(Mark::at(branch, mark), RowState::Known(Arrival::of(plane)));
    }

    // Puts a text in the row of a need, which is a view.
    fn put_bytes(&mut self, need: Need, bytes: Arc<Listing<u8>>)
        requires { CanBePut self.old need (Known (text (arc_value bytes))) }
        ensures row { PutsRow need (Known (text (arc_value bytes))) self.old self.new }
        ensures right { IsRightBook self.new }
    {
        let Need::View { id } = need else {
            unreachable!("a step has a pattern")
        };
        self.put_text(id, RowState::Known(SharedText::of(bytes)));
    }

    // Expects nothing in the row of a need any more.
    fn release(&mut self, need: Need)
        requires { CanBePut self.old need Empty }
        ensures row { PutsRow need Empty self.old self.new }
        ensures right { IsRightBook self.new }
    {
        match need {
            Need::Step { branch, mark } => {
                self.put_arrival(Mark::at(branch, mark), RowState::Empty);
            }
            Need::View { id } => self.put_text(id, RowState::Empty),
        }
    }

    /// Puts what is known, or out, in the row of a mark. Only a job that is out makes nothing
    /// ready.
    pub(crate) fn put_arrival(&mut self, mark: Mark, state: RowState<Arrival>)
        requires { CanBePut self.old (step_to mark) (state_map pattern state) }
        ensures row { PutsRow (step_to mark) (state_map pattern state) self.old self.new }
        ensures right { IsRightBook self.new }
    {
        self.cursor = self.cursor.if_stays(state.is_expected());
        put(&mut self.arrivals, mark.rank(), state);
    }

    // Puts what is known, or out, in the row of a bookmark. Neither makes another row ready.
    fn put_text(&mut self, id: u64, state: RowState<SharedText>)
        requires { CanBePut self.old (Need.View id) (state_map text state) }
        ensures row { PutsRow (Need.View id) (state_map text state) self.old self.new }
        ensures right { IsRightBook self.new }
    {
        self.cursor = self.cursor.if_stays(!state.is_empty());
        put(&mut self.texts, u128::from(id), state);
    }
}
