//! Steps to marks: which can be made, and what came of those that were made before.
ghost use Rattle.std.specs.Prelude.{◌≡◌, ◌<◌, ◌≤◌, ◌↔◌, length, slice_index_or, IsTrue};
ghost use Rattle.revision_jobs.specs.Answer.{IsRightAnswer, outcome_of, result_in};
ghost use Rattle.revision_jobs.specs.Entries.{IsOf};
ghost use Rattle.desk_events.specs.Needs.{step_to};
ghost use Rattle.dependency_book.specs.BookState.{SameButFacts, row_of};
ghost use Rattle.dependency_book.specs.Needs.{IsLedTo};
ghost use Rattle.dependency_book.specs.Ready.{AreHeldBack, IsFirst, NoneBefore, before_row};
ghost use Rattle.dependency_book.specs.Ready.{is_ready, steppable, waits};
ghost use Rattle.dependency_book.specs.Recalled.{Learns, LooksUp, LooksUpAll};
ghost use Rattle.dependency_book.specs.Right.{IsGiven, IsRightBook, WasIssued};
ghost use Rattle.dependency_book.specs.Rows.{ArrivalRow, IsRanked};
ghost use Rattle.dependency_book.specs.declared.row.RowState.TheVariants.{Empty};
ghost use Rattle.document_marks.specs.AllMarks.{mark_rank};

use crate::arrival::{Arrival, ArrivalRow};
use crate::book::Book;
use crate::row::{Key, RowState};
use desk_events::Mark;
use ranked_rows::get_near;
use revision_jobs::{Entry, Job, Outcome, Parts};
use schedule::Document;

/// The mark before that of the row at a place: where a branch begins, that of its parent there, and
/// else that of the row before, or the start before the first.
pub(crate) fn before_row(document: &Document, arrivals: &[ArrivalRow], place: usize) -> Mark
    requires { place < length arrivals.now }
    ensures { (x : ArrivalRow) →
        result ≡ before_row document.now.branches arrivals.now place x }
{
    let mark = arrivals[place].key;
    if let Some(branch) = document.branch(mark.branch) {
        if branch.fork == mark.generation {
            return Mark::at(branch.parent, branch.fork);
        }
    }
    if place == 0 {
        Mark::at(0, 0)
    } else {
        arrivals[place - 1].key
    }
}

// Whether what arrives at a mark is known, whose row may well be at the place `guess`; the start
// always is.
fn is_ready(arrivals: &[ArrivalRow], mark: Mark, guess: usize) -> bool
    requires { IsRanked mark_rank arrivals.now }
    ensures { result ≡ is_ready arrivals.now mark }
{
    if mark.is_start() {
        return true;
    }
    match get_near(arrivals, mark.rank(), guess) {
        Some(row) => row.state.is_known(),
        None => false,
    }
}

// Whether the row at a place waits for the row before it, which is of the same branch: what arrives
// there isn't known.
fn waits(arrivals: &[ArrivalRow], place: usize) -> bool
    requires { place < length arrivals.now }
    ensures { (x : ArrivalRow) → result ≡ waits arrivals.now place x }
{
    if place == 0 {
        return false;
    }
    let before = &arrivals[place - 1];
    before.key.branch == arrivals[place].key.branch && !before.state.is_known()
}

// Whether nothing stands in the row at a place where what arrives at the mark before is known. Most
// rows wait for the row before, and are passed over with one look at it.
fn can_step(document: &Document, arrivals: &[ArrivalRow], place: usize) -> bool
    requires low { place < length arrivals.now }
    requires ranked { IsRanked mark_rank arrivals.now }
    requires held_back { AreHeldBack document.now.branches arrivals.now }
    ensures { (x : ArrivalRow) →
        result ≡ steppable document.now.branches arrivals.now place x }
{
    if !arrivals[place].state.is_empty() || waits(arrivals, place) {
        return false;
    }
    let before = before_row(document, arrivals, place);
    is_ready(arrivals, before, place.saturating_sub(1))
}

/// The place of the first mark at which nothing stands where what arrives at the mark before it is
/// known. No mark before `from` is one.
pub(crate) fn first_step(document: &Document, arrivals: &[ArrivalRow], from: usize) -> Option<usize>
    requires ranked { IsRanked mark_rank arrivals.now }
    requires held_back { AreHeldBack document.now.branches arrivals.now }
    requires passed { NoneBefore (steppable document.now.branches arrivals.now) from }
    ensures { IsFirst (steppable document.now.branches arrivals.now)
        (length arrivals.now) result }
{
    for place in from..arrivals.len() {
        if can_step(document, arrivals, place) {
            return Some(place);
        }
    }
    None
}

impl Book<'_> {
    /// Keeps what came of a step, where its job is one that this book gave out. Where there is no
    /// memory for it nothing is kept.
    pub(crate) fn keep_fact(&mut self, parts: &Parts)
        requires own { IsOf self.old.table parts.now.job.place }
        requires right { IsRightAnswer parts.now.job parts.now.limit (outcome_of parts.now.outcome) }
        ensures same { SameButFacts self.old self.new }
        ensures missed { self.old.missed ≤ self.new.missed }
        ensures learns { Learns (result_in parts.now) self.old self.new }
    {
        let Outcome::Plane(plane) = &parts.outcome else {
            return;
        };
        if !self.gave(&parts.job) {
            return;
        }
        let Entry::Step(step) = self.entries.at(&parts.job.place) else {
            return;
        };
        let kept = self.facts.keep(step, plane);
        if kept.is_err() {
            self.missed.note();
        }
    }

    // Whether the number of a job was given for its entry.
    fn gave(&self, job: &Job) -> bool
        requires { IsOf self.now.table job.now.place }
        ensures issued { IsTrue result ↔ WasIssued self.now job.now }
        ensures given { IsTrue result → IsGiven self.now job.now }
    {
        match self.issued.get(job.number as usize) {
            Some(place) => self.entries.same(place, &job.place),
            None => false,
        }
    }

    /// Enters, from the first mark on, what comes of steps that were computed before, where nothing
    /// is known and no job is out. No step leads to a row before the cursor. Where there is no memory
    /// for a look a row stays empty.
    pub(crate) fn recall_all(&mut self)
        ensures all { LooksUpAll self.old self.new }
        ensures right { IsRightBook self.new }
    {
        for place in self.cursor.steps..self.arrivals.len() {
            self.recall_at(place);
        }
    }

    // Enters it in the row at a place.
    fn recall_at(&mut self, place: usize)
        requires { place < length self.old.arrivals }
        ensures looks { (x : ArrivalRow) →
            LooksUp (slice_index_or self.old.arrivals place x).key self.old self.new }
        ensures right { IsRightBook self.new }
    {
        if !can_step(&self.document, &self.arrivals, place) {
            return;
        }
        let mark = self.arrivals[place].key;
        self.recall(mark);
    }

    // Enters what comes of the step to a mark, if that was computed before.
    fn recall(&mut self, mark: Mark)
        requires led { IsLedTo self.old mark }
        requires empty { row_of self.old (step_to mark) ≡ Empty }
        ensures looks { LooksUp mark self.old self.new }
        ensures right { IsRightBook self.new }
    {
        let Ok(step) = self.step_to(mark) else {
            self.missed.note();
            return;
        };
        let Ok(found) = self.facts.recall(&step) else {
            self.missed.note();
            return;
        };
        let Some(plane) = found else {
            return;
        };
        self.put_arrival(mark, RowState::Known(Arrival::of(plane)));
    }
}
