//! A desk with its table of entries, and what tests do with them.
ghost use Rattle.std.specs.Prelude.{◌≡◌, ◌≤◌};
ghost use Rattle.revision_jobs.specs.Entries.{IsOf};
ghost use Rattle.desk_core.specs.Settling.{Serves};

use super::changes::{Change, edit_of};
use super::posts::{LosingPost, RefusingPost};
use super::same;
use desk_core::{
    Answer, Cause, Collected, Desk, EditFault, Edited, Entries, Entry, EvolveFault, InlinePost,
    Job, NoGate, Outcome, Place, Polled, Post, Settling, Shown, feed, poll, settle, work,
};
use std::alloc::Global;
use std::marker::Model;
use std::process::Abort;
use std::sync::Wait;

// How many squares a step may keep.
const SQUARES: u32 = 4096;

// More turns than a desk of these tests takes.
const TURNS: u32 = 100;

// How a settling ends that can't compute the one bookmark that is pending.
const ONE_LEFT: Settling = Settling::Unsettled {
    pending: 1,
    cause: None,
};

/// A desk whose jobs are of the table, the job that was issued last, until it is worked, and the
/// answer that came last.
#[derive(Drop)]
pub(super) struct Bench<'e> {
    alloc: Global,
    entries: &'e Entries,
    desk: Desk<'e>,
    job: Option<Job>,
    answer: Option<Answer>,
}

impl<'e> Model for Bench<'e> {
    ghost use Rattle.std.specs.Coded.{codes};
    ghost use Rattle.std.specs.Prelude.{◌≡◌, IfSome};
    ghost use Rattle.worlds.specs.World.{coded_world};
    ghost use Rattle.revision_jobs.specs.Entries.{IsOf};
    ghost use Rattle.dependency_book.specs.BookState.{BookState};

    ghost Value = { BookState };

    ghost coded = { Prim.hlevel (codes, coded_world) };

    ghost view = { λ b. b.desk };

    ghost invariant = { λ b. (b.desk.table ≡ b.entries.now)
        × IfSome b.job (λ j. IsOf b.entries.now j.place)
        × IfSome b.answer (λ a. IsOf b.entries.now a.job.place) };
}

/// What a job that is issued is to compute.
#[derive(Clone, Copy, Debug, PartialEq)]
pub(super) enum Wanted {
    /// A step of so many generations.
    Step(u64),
    /// A view at this generation.
    View(u64),
}

/// What a test does, or finds.
#[derive(Clone, Copy, Debug)]
pub(super) enum Act {
    /// The edit is accepted.
    Edit(Change),
    /// The edit is accepted, and this is told.
    Edited(Change, Edited),
    /// The edit is refused, and changes nothing that is counted.
    Refused(Change, EditFault),
    /// All is computed.
    Settle,
    /// Settles with the least room for squares, which ends so.
    SettleInNoRoom(Settling),
    /// Settles with no turn, which ends so.
    SettleInNoTurn(Settling),
    /// Feeds a post without threads, asks it to stop, and settles over it. Of one bookmark that is
    /// pending none is computed then.
    SettleStopped,
    /// Settles with so many turns over a post that loses each job.
    Lose(u32),
    /// Settles with so many turns over a post that is closed.
    Closed(u32),
    /// Settles with so many turns over a post that is full.
    Full(u32),
    /// Feeds a post that takes one job, and so many are taken.
    Feed(u32),
    /// Feeds a post that loses each job, and so many are taken.
    FeedLosing(u32),
    /// Feeds a post that is closed.
    FeedClosed,
    /// Polls a post without threads, once for each of these, which is how many bookmarks it finds
    /// pending.
    Poll(&'static [u32]),
    /// Polls such a post twice with the least room for squares, finds so many pending each time, and
    /// the second time that there is no room.
    PollInNoRoom(u32),
    /// Polls a post that is closed, and finds so many pending.
    PollClosed(u32),
    /// A job of this number is issued, for this.
    Issue(u32, Wanted),
    /// The stop of the job is raised.
    Raise,
    /// The job is worked.
    Work,
    /// Another desk of the table has the rule X, the cell (0, 0) and counts at 8 too. Its first job
    /// is worked.
    WorkOfAnother,
    /// The last answer is collected, as often as it comes, and this comes of it.
    Collect(Collected),
    /// The last answer gave up, for this.
    Gave(EvolveFault),
    /// The job of this number is cancelled, if it is out.
    Cancel(u32, bool),
    FirstOut(Option<u32>),
    Given(u32),
    Pending(u32),
    Revision(u64),
    /// The rule's name.
    Rule(&'static str),
    /// The bookmark of an id shows a text.
    Shows(u64, &'static str),
    /// The bookmark of this id is pending.
    Waits(u64),
    /// There is no bookmark of this id.
    Lacks(u64),
}

impl<'e> Bench<'e> {
    /// A desk of the opening document, which keeps so many steps.
    pub(super) fn open(
        rt: &impl Abort,
        alloc: Global,
        entries: &'e Entries,
        facts: u32,
    ) -> Bench<'e> {
        Bench {
            alloc,
            entries,
            desk: Desk::open(alloc, entries, facts).expect(rt, "memory"),
            job: None,
            answer: None,
        }
    }

    /// Does what the acts say, or stops the test where something else is found.
    pub(super) fn act_all<R: Abort + Wait>(&mut self, rt: &R, acts: &[Act]) {
        for act in acts {
            self.act(rt, act);
        }
    }

    fn act<R: Abort + Wait>(&mut self, rt: &R, act: &Act) {
        match *act {
            Act::Edit(change) => {
                let _edited = edit(rt, self.alloc, &mut self.desk, change);
            }
            Act::Edited(change, wanted) => self.edited(rt, change, &wanted),
            Act::Refused(change, fault) => self.refuse(rt, change, fault),
            Act::Settle => self.settle(rt),
            Act::SettleInNoRoom(wanted) => {
                same(rt, &self.settled(rt, 64, TURNS), &wanted, act);
            }
            Act::SettleInNoTurn(wanted) => {
                same(rt, &self.settled(rt, SQUARES, 0), &wanted, act);
            }
            Act::SettleStopped => self.settle_stopped(rt),
            Act::Lose(turns) => self.settle_over_losing(rt, turns),
            Act::Closed(turns) => self.settle_over_refusing(rt, turns, true),
            Act::Full(turns) => self.settle_over_refusing(rt, turns, false),
            Act::Feed(taken) => {
                let mut post = InlinePost::new(self.alloc, self.entries, SQUARES);
                same(rt, &feed(rt, &mut self.desk, &mut post), &taken, act);
            }
            Act::FeedLosing(taken) => {
                let mut post = LosingPost::new(self.entries);
                same(rt, &feed(rt, &mut self.desk, &mut post), &taken, act);
            }
            Act::FeedClosed => {
                let mut post = RefusingPost::new(self.entries, true);
                same(rt, &feed(rt, &mut self.desk, &mut post), &0, act);
            }
            Act::Poll(wanted) => self.poll(rt, wanted),
            Act::PollInNoRoom(pending) => self.poll_in_no_room(rt, pending),
            Act::PollClosed(pending) => {
                let mut post = RefusingPost::new(self.entries, true);
                poll_once(rt, &mut self.desk, &mut post, pending, None);
            }
            Act::Issue(number, wanted) => self.issue(rt, number, &wanted),
            Act::Raise => self.raise(rt),
            Act::Work => self.work(rt),
            Act::WorkOfAnother => self.work_of_another(rt),
            Act::Collect(wanted) => self.collect(rt, &wanted),
            Act::Gave(fault) => self.gave(rt, fault),
            Act::Cancel(number, wanted) => same(rt, &self.desk.cancel(number), &wanted, act),
            Act::FirstOut(wanted) => same(rt, &self.desk.first_out(), &wanted, act),
            Act::Given(wanted) => same(rt, &self.desk.given(), &wanted, act),
            Act::Pending(wanted) => same(rt, &self.desk.pending(), &wanted, act),
            Act::Revision(wanted) => same(rt, &self.desk.document().revision(), &wanted, act),
            Act::Rule(name) => {
                same(
                    rt,
                    &self.desk.document().rule().name(),
                    &name.as_bytes(),
                    act,
                );
            }
            Act::Shows(id, text) => self.shows(rt, id, &Shown::Current(text.as_bytes())),
            Act::Waits(id) => self.shows(rt, id, &Shown::Pending),
            Act::Lacks(id) => self.shows(rt, id, &Shown::NoSuch),
        }
    }

    fn edited(&mut self, rt: &impl Abort, change: Change, wanted: &Edited) {
        let edited = edit(rt, self.alloc, &mut self.desk, change);
        same(rt, &edited, wanted, &change);
    }

    fn refuse(&mut self, rt: &impl Abort, change: Change, fault: EditFault) {
        let before = self.counts();
        let edit = edit_of(rt, self.alloc, change);
        same(rt, &self.desk.edit(&edit), &Err(fault), &change);
        same(rt, &self.counts(), &before, &change);
    }

    // The revision, how many bookmarks there are, and how many are pending.
    fn counts(&self) -> (u64, usize, u32) {
        let document = self.desk.document();
        (
            document.revision(),
            document.bookmarks().len(),
            self.desk.pending(),
        )
    }

    fn shows(&self, rt: &impl Abort, id: u64, wanted: &Shown) {
        same(rt, &self.desk.shown(id), wanted, &id);
    }

    // Settles over a post without threads.
    fn settled<R: Wait>(&mut self, rt: &R, squares: u32, turns: u32) -> Settling {
        let mut post = InlinePost::new(self.alloc, self.entries, squares);
        settle(rt, &mut self.desk, &mut post, turns)
    }

    fn poll<R: Abort + Wait>(&mut self, rt: &R, wanted: &[u32]) {
        let mut post = InlinePost::new(self.alloc, self.entries, SQUARES);
        poll_all(rt, &mut self.desk, &mut post, wanted);
    }

    fn poll_in_no_room<R: Abort + Wait>(&mut self, rt: &R, pending: u32) {
        let mut post = InlinePost::new(self.alloc, self.entries, 64);
        poll_once(rt, &mut self.desk, &mut post, pending, None);
        poll_once(rt, &mut self.desk, &mut post, pending, Some(Cause::NoRoom));
    }

    // Settles with memory for all. Where a growth is refused the cause is told, and the next
    // settling computes what is left.
    fn settle<R: Abort + Wait>(&mut self, rt: &R) {
        let settling = self.settled(rt, SQUARES, TURNS);
        if settling == Settling::Settled {
            return;
        }
        let unsettled = Settling::Unsettled {
            pending: self.desk.pending(),
            cause: Some(Cause::NoMemory),
        };
        same(rt, &settling, &unsettled, &"unsettled");
        let again = self.settled(rt, SQUARES, TURNS);
        same(rt, &again, &Settling::Settled, &"settled again");
        panic!(rt; "memory");
    }

    // Settles over a post without threads that was asked to stop what it holds.
    fn settle_stopped<R: Abort + Wait>(&mut self, rt: &R) {
        let mut post = InlinePost::new(self.alloc, self.entries, SQUARES);
        feed(rt, &mut self.desk, &mut post);
        self.desk.stop_all();
        let stopped = Settling::Unsettled {
            pending: 1,
            cause: Some(Cause::Stopped),
        };
        let left = settle(rt, &mut self.desk, &mut post, TURNS);
        same(rt, &left, &stopped, &"stopped");
    }

    // Settles over a post that loses its jobs, with one bookmark pending.
    fn settle_over_losing<R: Abort + Wait>(&mut self, rt: &R, turns: u32) {
        let mut post = LosingPost::new(self.entries);
        let left = settle(rt, &mut self.desk, &mut post, turns);
        same(rt, &left, &ONE_LEFT, &turns);
    }

    // Settles over a post that takes no job, with one bookmark pending.
    fn settle_over_refusing<R: Abort + Wait>(&mut self, rt: &R, turns: u32, is_closed: bool) {
        let mut post = RefusingPost::new(self.entries, is_closed);
        let left = settle(rt, &mut self.desk, &mut post, turns);
        same(rt, &left, &ONE_LEFT, &turns);
    }

    fn issue<R: Abort + Wait>(&mut self, rt: &R, number: u32, wanted: &Wanted) {
        let issued = self.desk.issue(rt).expect(rt, "memory");
        let job = issued.expect(rt, "a job");
        same(rt, &job.number, &number, wanted);
        same(rt, &self.wanted(&job.place), wanted, &number);
        self.job = Some(job);
    }

    // What the entry at the place is to compute.
    fn wanted(&self, place: &Place) -> Wanted
        requires { IsOf self.now.table place.now }
    {
        match self.entries.at(place) {
            Entry::Step(step) => Wanted::Step(step.gens),
            Entry::View(rendering) => Wanted::View(rendering.generation),
        }
    }

    fn raise(&self, rt: &impl Abort) {
        let job = self.job.as_ref().expect(rt, "a job");
        self.entries.raise(&job.place);
    }

    fn work(&mut self, rt: &impl Abort) {
        let job = self.job.take().expect(rt, "a job");
        self.answer = Some(self.worked(job));
    }

    fn worked(&self, job: Job) -> Answer
        requires { IsOf self.now.table job.place }
        ensures { result.job ≡ job }
    {
        let mut stop = self.entries.stop(&job.place);
        work(
            self.alloc,
            job,
            self.entries,
            &mut NoGate,
            &mut stop,
            SQUARES,
        )
    }

    fn work_of_another<R: Abort + Wait>(&mut self, rt: &R) {
        let mut other = desk_at_8(rt, self.alloc, self.entries);
        let issued = other.issue(rt).expect(rt, "memory");
        let job = issued.expect(rt, "a job");
        self.answer = Some(self.worked(job));
    }

    fn collect(&mut self, rt: &impl Abort, wanted: &Collected) {
        let last = self.answer.as_ref().expect(rt, "an answer");
        let answer = last.again().expect(rt, "memory");
        same(rt, &self.desk.collect(answer), wanted, &"collected");
    }

    fn gave(&self, rt: &impl Abort, wanted: EvolveFault) {
        let last = self.answer.as_ref().expect(rt, "an answer");
        let answer = last.again().expect(rt, "memory");
        let outcome = answer.into_parts().outcome;
        match outcome {
            Outcome::Gave(fault) => same(rt, &fault, &wanted, &"fault"),
            Outcome::Plane(_) => panic!(rt; "a plane"),
            Outcome::Text(_) => panic!(rt; "a text"),
        }
    }
}

fn poll_once<R: Abort + Wait, P: Post>(
    rt: &R,
    desk: &mut Desk<'_>,
    post: &mut P,
    pending: u32,
    cause: Option<Cause>,
)
    requires { Serves desk.old (P.view post.old) }
    ensures serves { Serves desk.new (P.view post.new) }
    ensures table { desk.new.table ≡ desk.old.table }
{
    let wanted = Polled { pending, cause };
    same(rt, &poll(rt, desk, post), &wanted, &"polled");
}

fn poll_all<R: Abort + Wait>(rt: &R, desk: &mut Desk<'_>, post: &mut InlinePost<'_>, wanted: &[u32])
    requires { Serves desk.old post.old }
    ensures { desk.new.table ≡ desk.old.table }
{
    for pending in wanted {
        poll_once(rt, desk, post, *pending, None);
    }
}

fn edit(rt: &impl Abort, alloc: Global, desk: &mut Desk, change: Change) -> Edited
    ensures { desk.new.table ≡ desk.old.table }
{
    let edit = edit_of(rt, alloc, change);
    desk.edit(&edit).expect(rt, "an accepted edit")
}

fn desk_at_8<'e>(rt: &impl Abort, alloc: Global, entries: &'e Entries) -> Desk<'e>
    ensures { result.table ≡ entries.now }
{
    let mut desk = Desk::open(alloc, entries, 1).expect(rt, "memory");
    edit(rt, alloc, &mut desk, Change::Rule);
    edit(rt, alloc, &mut desk, Change::Set(&[(0, 0, 1)]));
    edit(rt, alloc, &mut desk, Change::Mark(8));
    desk
}
