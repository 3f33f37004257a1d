//! A book with a table of entries, and what tests do with them.
ghost use Rattle.std.specs.Prelude.{◌≡◌, Some};
ghost use Rattle.revision_jobs.specs.Entries.{IsOf, entry_of};
ghost use Rattle.dependency_book.specs.Entered.{IsEntryOf};
ghost use Rattle.dependency_book.specs.Needs.{IsNext};

use super::{cell, listed, rule_x, same};
use dependency_book::{Book, Filled, Need, Shown};
use plane_core::Stop;
use revision_jobs::{Answer, Entries, Job, NoGate, Place, work};
use schedule::{CellSet, Edit, View};
use std::alloc::Global;
use std::marker::Model;
use std::mem;
use std::num::NonZeroUsize;
use std::process::Abort;
use std::sync::Wait;
use step_engine::EvolveFault;

// How many squares a step may keep.
const SQUARES: u32 = 4096;

// The cells (-4, 0) to (4, 0).
const LOOK: View = View::Window {
    left: -4,
    top: 0,
    width: 9,
    height: 1,
};

// More numbers than a test gives.
const NUMBERS: u32 = 100;

/// A book whose jobs are of the table, the answer that came last and the one before.
#[derive(Drop)]
pub(super) struct Bench<'e> {
    alloc: Global,
    entries: &'e Entries,
    book: Book<'e>,
    last: Option<Answer>,
    before: Option<Answer>,
}

impl<'e> Model for Bench<'e> {
    ghost use Rattle.std.specs.Coded.{codes};
    ghost use Rattle.std.specs.Prelude.{◌≡◌, IfSome};
    ghost use Rattle.worlds.specs.World.{coded_world};
    ghost use Rattle.revision_jobs.specs.Entries.{IsOf};
    ghost use Rattle.dependency_book.specs.BookState.{BookState};

    ghost Value = { BookState };

    ghost coded = { Prim.hlevel (codes, coded_world) };

    ghost view = { λ b. b.book };

    ghost invariant = { λ b. (b.book.table ≡ b.entries.now)
        × IfSome b.last (λ a. IsOf b.entries.now a.job.place)
        × IfSome b.before (λ a. IsOf b.entries.now a.job.place) };
}

/// The first generation at which an intervention repeats, the distance, and a last one.
pub(super) type Times = (u64, u64, u64);

/// What a test does, or finds.
#[derive(Clone, Copy, Debug)]
pub(super) enum Act {
    /// Takes the rule X, and sets the cell (0, 0).
    Start,
    /// Adds a bookmark of counts at this generation of branch 0.
    Mark(u64),
    /// Adds a bookmark of counts at a generation of a branch.
    MarkIn {
        branch: u64,
        generation: u64,
    },
    /// Adds a bookmark of the cells (-4, 0) to (4, 0) at a generation of a branch.
    LookIn {
        branch: u64,
        generation: u64,
    },
    /// Moves the bookmark of an id.
    Move {
        id: u64,
        generation: u64,
    },
    /// Removes the bookmark of this id.
    Unmark(u64),
    /// Inserts an intervention of branch 0 that sets the cell (x, 0).
    Insert {
        generation: u64,
        x: i64,
    },
    /// Moves the intervention of an id, which sets the cell (x, 0) then.
    Change {
        id: u64,
        generation: u64,
        x: i64,
    },
    /// Inserts an intervention of branch 0 that takes the cell (x, 0) away.
    Clear {
        generation: u64,
        x: i64,
    },
    /// Inserts an intervention of a branch that takes the cell (x, 0) away.
    ClearIn {
        branch: u64,
        generation: u64,
        x: i64,
    },
    /// Moves the intervention of an id, which takes the cell (x, 0) away then.
    ChangeClear {
        id: u64,
        generation: u64,
        x: i64,
    },
    /// Inserts an intervention of a branch that repeats, and sets the cell (x, 0) to a state.
    Repeat {
        branch: u64,
        times: Times,
        x: i64,
        state: u16,
    },
    /// Lets the intervention of an id repeat, which sets the cell (x, 0) to a state then.
    ChangeRepeat {
        id: u64,
        times: Times,
        x: i64,
        state: u16,
    },
    /// Removes the intervention of this id.
    Remove(u64),
    /// Adds a branch that leaves its parent at this generation.
    Branch {
        parent: u64,
        generation: u64,
    },
    /// Removes this branch.
    Unbranch(u64),
    /// The need is the next. Its job goes out, and is worked.
    Issue(Need),
    /// The same with a raised stop.
    Stop(Need),
    /// The need is the next. A job for it is worked under the number of the first that is out.
    Stray(Need),
    /// The last answer is taken, as often as it comes, and this comes of it.
    Fill(Filled),
    /// The answer before the last is taken, as often as it comes, and this comes of it.
    FillBefore(Filled),
    /// The need is the next, and its row is filled.
    Compute(Need),
    /// At most so many rows are filled, and then nothing is needed or pending.
    Settle(u32),
    /// The last answer's job is forgotten, if a row expects it.
    Forget(bool),
    /// Whoever works a job that is out is asked to stop.
    StopAll,
    /// Whether whoever works the last answer's job is asked to stop.
    IsAsked(bool),
    Next(Option<Need>),
    FirstOut(Option<u32>),
    Given(u32),
    Pending(u32),
    Revision(u64),
    /// The bookmark of an id shows a text.
    Shows(u64, &'static str),
    /// The bookmark of this id is pending.
    Waits(u64),
    /// There is no bookmark of this id.
    Lacks(u64),
}

impl<'e> Bench<'e> {
    /// A book of the opening document.
    pub(super) fn open(rt: &impl Abort, alloc: Global, entries: &'e Entries) -> Bench<'e> {
        Bench {
            alloc,
            entries,
            book: Book::open(alloc, entries, 7, NonZeroUsize::MIN).expect(rt, "memory"),
            last: None,
            before: None,
        }
    }

    /// Does what the act says, or stops the test where something else is found.
    pub(super) fn act<R: Abort + Wait>(&mut self, rt: &R, act: &Act) {
        match *act {
            Act::Start => self.start(rt),
            Act::Mark(generation) => self.mark(rt, 0, generation, View::Counts),
            Act::MarkIn { branch, generation } => self.mark(rt, branch, generation, View::Counts),
            Act::LookIn { branch, generation } => self.mark(rt, branch, generation, LOOK),
            Act::Move { id, generation } => {
                self.revise(rt, &Edit::MoveBookmark { id, generation });
            }
            Act::Unmark(id) => self.revise(rt, &Edit::RemoveBookmark { id }),
            Act::Insert { generation, x } => self.insert(rt, 0, generation, cell(x, 1)),
            Act::Change { id, generation, x } => self.change(rt, id, generation, cell(x, 1)),
            Act::Clear { generation, x } => self.insert(rt, 0, generation, cell(x, 0)),
            Act::ClearIn {
                branch,
                generation,
                x,
            } => self.insert(rt, branch, generation, cell(x, 0)),
            Act::ChangeClear { id, generation, x } => {
                self.change(rt, id, generation, cell(x, 0));
            }
            Act::Repeat {
                branch,
                times,
                x,
                state,
            } => self.repeat(rt, branch, times, cell(x, state)),
            Act::ChangeRepeat {
                id,
                times,
                x,
                state,
            } => {
                self.change_repeat(rt, id, times, cell(x, state));
            }
            Act::Remove(id) => self.revise(rt, &Edit::RemoveIntervention { id }),
            Act::Branch { parent, generation } => {
                self.revise(rt, &Edit::AddBranch { parent, generation });
            }
            Act::Unbranch(branch) => self.revise(rt, &Edit::RemoveBranch { branch }),
            Act::Issue(need) => self.issue(rt, &need, false),
            Act::Stop(need) => self.issue(rt, &need, true),
            Act::Stray(need) => self.stray(rt, &need),
            Act::Fill(wanted) => self.fill(rt, &wanted),
            Act::FillBefore(wanted) => {
                mem::swap(&mut self.last, &mut self.before);
                self.fill(rt, &wanted);
            }
            Act::Compute(need) => self.compute(rt, &need),
            Act::Settle(rows) => self.settle(rt, rows),
            Act::Forget(wanted) => self.forget(rt, wanted),
            Act::StopAll => self.book.stop_all(),
            Act::IsAsked(wanted) => self.is_asked(rt, wanted),
            Act::Next(wanted) => same(rt, &self.book.next_need(), &wanted, act),
            Act::FirstOut(wanted) => same(rt, &self.book.first_out(), &wanted, act),
            Act::Given(wanted) => same(rt, &self.book.given(), &wanted, act),
            Act::Pending(wanted) => same(rt, &self.book.pending(), &wanted, act),
            Act::Revision(wanted) => same(rt, &self.book.document().revision(), &wanted, act),
            Act::Shows(id, text) => self.shows(rt, id, &Shown::Current(text.as_bytes())),
            Act::Waits(id) => self.shows(rt, id, &Shown::Pending),
            Act::Lacks(id) => self.shows(rt, id, &Shown::NoSuch),
        }
    }

    fn revise(&mut self, rt: &impl Abort, edit: &Edit) {
        let _edited = self.book.revise(edit).expect(rt, "an accepted edit");
    }

    fn start(&mut self, rt: &impl Abort) {
        self.revise(rt, &rule_x(rt, self.alloc));
        let cells = listed(rt, self.alloc, cell(0, 1));
        self.revise(rt, &Edit::SetCells { cells });
    }

    fn mark(&mut self, rt: &impl Abort, branch: u64, generation: u64, view: View) {
        self.revise(
            rt,
            &Edit::AddBookmark {
                branch,
                generation,
                view,
            },
        );
    }

    fn insert(&mut self, rt: &impl Abort, branch: u64, generation: u64, set: CellSet) {
        let cells = listed(rt, self.alloc, set);
        self.revise(rt, &Edit::insert_intervention(branch, generation, cells));
    }

    fn change(&mut self, rt: &impl Abort, id: u64, generation: u64, set: CellSet) {
        let cells = listed(rt, self.alloc, set);
        self.revise(rt, &Edit::change_intervention(id, generation, cells));
    }

    fn repeat(&mut self, rt: &impl Abort, branch: u64, times: Times, set: CellSet) {
        let cells = listed(rt, self.alloc, set);
        let edit = Edit::insert_repeat(branch, times.0, times.1, times.2, cells);
        self.revise(rt, &edit);
    }

    fn change_repeat(&mut self, rt: &impl Abort, id: u64, times: Times, set: CellSet) {
        let cells = listed(rt, self.alloc, set);
        let edit = Edit::change_repeat(id, times.0, times.1, times.2, cells);
        self.revise(rt, &edit);
    }

    fn shows(&self, rt: &impl Abort, id: u64, wanted: &Shown) {
        same(rt, &self.book.shown(id), wanted, &id);
    }

    fn next(&mut self, rt: &impl Abort, wanted: &Need) -> Need
        ensures same { self.new ≡ self.old }
        ensures next { IsNext self.new (Some result) }
    {
        let next = self.book.next_need().expect(rt, "a need");
        same(rt, &next, wanted, &"the next need");
        next
    }

    // Stores what is to be computed for the need, which is the next.
    fn stored<R: Abort + Wait>(&self, rt: &R, next: &Need) -> Place
        requires { IsNext self.now (Some next.now) }
        ensures own { IsOf self.now.table result }
        ensures entry { IsEntryOf self.now next.now (entry_of result) }
    {
        let entry = self.book.entry(next).expect(rt, "memory");
        self.entries.push(rt, entry).expect(rt, "memory")
    }

    // Works what is to be computed for the need, under the number of another job that is out.
    fn stray<R: Abort + Wait>(&mut self, rt: &R, need: &Need) {
        let next = self.next(rt, need);
        let place = self.stored(rt, &next);
        let number = self.book.first_out().expect(rt, "a job that is out");
        self.last = Some(self.worked(Job { number, place }));
    }

    // Sends a job out for the need, and works it under its entry's stop.
    fn issue<R: Abort + Wait>(&mut self, rt: &R, need: &Need, is_stopped: bool) {
        let next = self.next(rt, need);
        let place = self.stored(rt, &next);
        if is_stopped {
            self.entries.raise(&place);
        }
        let number = self.book.given();
        assert!(rt; number < NUMBERS, "too many jobs");
        let out = Job {
            number,
            place: place.share(),
        };
        self.book.expect(&next, out).expect(rt, "memory");
        let answer = self.worked(Job { number, place });
        self.before = mem::replace(&mut self.last, Some(answer));
    }

    fn worked(&self, job: Job) -> Answer
        requires { IsOf self.now.table job.place }
        ensures { result.job ≡ job }
    {
        let mut stop = self.entries.stop(&job.place);
        work(
            self.alloc,
            job,
            self.entries,
            &mut NoGate,
            &mut stop,
            SQUARES,
        )
    }

    // Where memory runs out the row is needed still.
    fn fill(&mut self, rt: &impl Abort, wanted: &Filled) {
        let last = self.last.as_ref().expect(rt, "an answer");
        let answer = last.again().expect(rt, "memory");
        let filled = self.book.fill(answer);
        if filled == Filled::Released(EvolveFault::NoMemory) {
            assert!(rt; self.book.next_need().is_some(), "still needed");
            panic!(rt; "memory");
        }
        same(rt, &filled, wanted, &"filled");
    }

    fn compute<R: Abort + Wait>(&mut self, rt: &R, need: &Need) {
        self.issue(rt, need, false);
        self.fill(rt, &Filled::Row);
    }

    fn compute_next<R: Abort + Wait>(&mut self, rt: &R) {
        if let Some(need) = self.book.next_need() {
            self.compute(rt, &need);
        }
    }

    fn settle<R: Abort + Wait>(&mut self, rt: &R, rows: u32) {
        for _ in 0..rows {
            self.compute_next(rt);
        }
        same(rt, &self.book.next_need(), &None, &"settled");
        same(rt, &self.book.pending(), &0, &"settled");
    }

    fn forget(&mut self, rt: &impl Abort, wanted: bool) {
        let last = self.last.as_ref().expect(rt, "an answer");
        let found = match self.book.forget(last.number()) {
            Some(place) => self.entries.same(&place, last.place()),
            None => false,
        };
        same(rt, &found, &wanted, &"forgotten");
    }

    fn is_asked(&self, rt: &impl Abort, wanted: bool) {
        let last = self.last.as_ref().expect(rt, "an answer");
        let asked = self.entries.stop(last.place()).poll();
        same(rt, &asked, &wanted, &"asked to stop");
    }
}
