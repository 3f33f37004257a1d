//! The progress of a settling.
ghost use Rattle.std.specs.Prelude.{◌≡◌, ◌≤◌, ◌*◌, ◌+◌, None, Some, true};
ghost use Rattle.revision_jobs.specs.Entries.{IsOf};
ghost use Rattle.dependency_book.specs.BookState.{empty_rows_of};
ghost use Rattle.desk_core.specs.Looks.{LooksIfAnswered, LooksOn};
ghost use Rattle.desk_core.specs.Progress.{Advances, Asks, CanSendNext, Frees, GoesOn, GoesOnBy};
ghost use Rattle.desk_core.specs.Progress.{GoesOnWith, HasCome, IsDoneBy, RunsOut, SeesAll};
ghost use Rattle.desk_core.specs.Progress.{TakesNoMore, job_in, ready, stage};
ghost use Rattle.desk_core.specs.Settling.{GivesAtMost, HoldsAllOut, Serves, rows_of};

use crate::cause::Cause;
use crate::collect::Collected;
use crate::desk::Desk;
use crate::looking::Onlooker;
use crate::unsent::Unsent;
use revision_jobs::{Answer, Job, Post, Received, Sent};
use std::mem;
use std::ops::ControlFlow;
use std::sync::Wait;

// How far a settling is: the job that it hasn't sent yet, and the first cause, after which it
// issues nothing more.
#[derive(Drop)]
pub(crate) struct Progress {
    pub(crate) unsent: Unsent,
    pub(crate) cause: Option<Cause>,
}

impl Progress {
    // Nothing was issued yet.
    pub(crate) fn begun() -> Progress
        ensures { (result.unsent ≡ Unsent.Nothing) × (result.cause ≡ None) }
    {
        Progress {
            unsent: Unsent::Nothing,
            cause: None,
        }
    }

    // Settles for at most so many turns, while somebody looks on.
    pub(crate) fn run<P: Post, O: Onlooker>(
        rt: &impl Wait,
        desk: &mut Desk<'_>,
        post: &mut P,
        turns: u32,
        onlooker: &mut O,
    ) -> Progress
        requires { Serves desk.old (P.view post.old) }
        ensures comes { HasCome desk.old (P.view post.old)
            (stage desk.new (P.view post.new) result) }
        ensures given { GivesAtMost turns desk.old desk.new }
        ensures ended { RunsOut turns (P.view post.old) (stage desk.new (P.view post.new) result) }
        ensures done { HoldsAllOut desk.old (P.view post.old) → 4 * rows_of desk.old ≤ turns →
            IsDoneBy (stage desk.new (P.view post.new) result) }
        ensures looked { LooksOn O.sees (P.view post.old) (P.view post.new) desk.old
            onlooker.old onlooker.new }
    {
        onlooker.look(desk);
        let mut progress = Progress::begun();
        for _ in 0..turns {
            match progress.turn(rt, desk, post, onlooker) {
                ControlFlow::Continue(()) => {}
                ControlFlow::Break(()) => return progress,
            }
        }
        progress
    }

    // A turn: what is needed next is issued, and then there is one send or one receive. The settling
    // ends where nothing is left to send and nothing is out.
    fn turn<P: Post, O: Onlooker>(
        &mut self,
        rt: &impl Wait,
        desk: &mut Desk<'_>,
        post: &mut P,
        onlooker: &mut O,
    ) -> ControlFlow<()>
        requires { CanSendNext desk.old (P.view post.old) (job_in self.old.unsent) }
        ensures goes { GoesOn 1 (stage desk.old (P.view post.old) self.old)
            (stage desk.new (P.view post.new) self.new) }
        ensures asks { Asks (stage desk.old (P.view post.old) self.old)
            (stage desk.new (P.view post.new) self.new) result }
        ensures nears { Advances (stage desk.old (P.view post.old) self.old)
            (stage desk.new (P.view post.new) self.new) result }
        ensures looked { LooksIfAnswered O.sees (P.view post.old) (P.view post.new) desk.new
            onlooker.old onlooker.new }
    {
        self.issue(rt, desk);
        self.exchange(desk, post, onlooker)
    }

    // Sends the job that isn't sent yet, or takes an answer where there is none or the post had no
    // room for it.
    fn exchange<P: Post, O: Onlooker>(
        &mut self,
        desk: &mut Desk<'_>,
        post: &mut P,
        onlooker: &mut O,
    ) -> ControlFlow<()>
        requires fits { CanSendNext desk.old (P.view post.old) (job_in self.old.unsent) }
        requires sees { SeesAll desk.old self.old }
        ensures goes { GoesOn 0 (stage desk.old (P.view post.old) self.old)
            (stage desk.new (P.view post.new) self.new) }
        ensures asks { Asks (stage desk.old (P.view post.old) self.old)
            (stage desk.new (P.view post.new) self.new) result }
        ensures nears { Advances (stage desk.old (P.view post.old) self.old)
            (stage desk.new (P.view post.new) self.new) result }
        ensures looked { LooksIfAnswered O.sees (P.view post.old) (P.view post.new) desk.new
            onlooker.old onlooker.new }
    {
        match mem::replace(&mut self.unsent, Unsent::Nothing) {
            Unsent::Ready(job) => self.send(desk, post, job),
            Unsent::Waiting(job) => {
                self.unsent = Unsent::Ready(job);
                self.receive(desk, post, onlooker)
            }
            Unsent::Nothing => {
                if desk.is_out() {
                    self.receive(desk, post, onlooker)
                } else {
                    ControlFlow::Break(())
                }
            }
        }
    }

    // Issues a job for what is to be computed next, where none is left to send and there is no
    // cause.
    fn issue(&mut self, rt: &impl Wait, desk: &mut Desk<'_>)
        ensures goes { GoesOnBy desk.old desk.new self.old self.new }
        ensures turns { TakesNoMore desk.old desk.new self.old self.new }
        ensures none { SeesAll desk.new self.new }
    {
        if !self.unsent.is_nothing() || self.cause.is_some() {
            return;
        }
        match desk.issue(rt) {
            Ok(Some(job)) => self.unsent = Unsent::Ready(job),
            Ok(None) => {}
            Err(fault) => self.cause = Some(Cause::of_issue(fault)),
        }
    }

    // Hands a job on. A post that takes none any more ends the settling.
    fn send<P: Post>(&mut self, desk: &mut Desk<'_>, post: &mut P, job: Job) -> ControlFlow<()>
        requires fits { CanSendNext desk.old (P.view post.old) (Some job) }
        requires none { self.old.unsent ≡ Unsent.Nothing }
        ensures goes { GoesOn 0 (stage desk.old (P.view post.old) (ready job self.old))
            (stage desk.new (P.view post.new) self.new) }
        ensures asks { Asks (stage desk.old (P.view post.old) (ready job self.old))
            (stage desk.new (P.view post.new) self.new) result }
        ensures nears { Advances (stage desk.old (P.view post.old) (ready job self.old))
            (stage desk.new (P.view post.new) self.new) result }
        ensures silent { (P.view post.new).answers ≡ (P.view post.old).answers }
    {
        match post.send(job) {
            Sent::Taken => ControlFlow::Continue(()),
            Sent::Full(job) => {
                self.unsent = Unsent::Waiting(job);
                ControlFlow::Continue(())
            }
            Sent::Closed(job) => {
                desk.cancel(job.number);
                ControlFlow::Break(())
            }
        }
    }

    // Takes an answer, if there is one, and then lets the desk be looked at. A post that has none
    // any more ends the settling.
    fn receive<P: Post, O: Onlooker>(
        &mut self,
        desk: &mut Desk<'_>,
        post: &mut P,
        onlooker: &mut O,
    ) -> ControlFlow<()>
        requires { CanSendNext desk.old (P.view post.old) (job_in self.old.unsent) }
        ensures goes { GoesOn 0 (stage desk.old (P.view post.old) self.old)
            (stage desk.new (P.view post.new) self.new) }
        ensures asks { Asks (stage desk.old (P.view post.old) self.old)
            (stage desk.new (P.view post.new) self.new) result }
        ensures frees { (P.view post.old).is_prompt ≡ true →
            Frees (stage desk.old (P.view post.old) self.old)
            (stage desk.new (P.view post.new) self.new) result }
        ensures looked { LooksIfAnswered O.sees (P.view post.old) (P.view post.new) desk.new
            onlooker.old onlooker.new }
    {
        match post.receive() {
            Received::Answer(answer) => {
                self.collect(desk, answer);
                onlooker.look(desk);
                ControlFlow::Continue(())
            }
            Received::Nothing => ControlFlow::Continue(()),
            Received::Ended => ControlFlow::Break(()),
        }
    }

    // Collects an answer. Where its job gave up nothing more is issued, and the job that isn't sent
    // yet is cancelled.
    pub(crate) fn collect(&mut self, desk: &mut Desk<'_>, answer: Answer)
        requires { IsOf desk.old.table answer.job.place }
        ensures goes { GoesOnWith answer desk.old desk.new self.old self.new }
        ensures same { self.new.cause ≡ None → self.new.unsent ≡ self.old.unsent }
        ensures wanting { self.new.cause ≡ None → empty_rows_of desk.new ≤ empty_rows_of desk.old }
        ensures none { self.old.unsent ≡ Unsent.Nothing → self.new.unsent ≡ Unsent.Nothing }
    {
        if let Collected::Released(fault) = desk.collect(answer) {
            self.cause = Some(self.cause.unwrap_or(Cause::of_answer(fault)));
            mem::replace(&mut self.unsent, Unsent::Nothing).cancel(desk);
        }
    }
}
