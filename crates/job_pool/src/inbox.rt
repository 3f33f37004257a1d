//! The end of a worker from which it takes jobs.
ghost use Rattle.std.specs.Prelude.{◌≡◌, IfSome};
ghost use Rattle.revision_jobs.specs.Entries.{IsOf};

use crate::bells::Call;
use crossbeam_channel::Receiver;
use job_queue::JobTaker;
use revision_jobs::Job;
use std::hint::spin_loop;
use std::marker::Model;
use std::sync::Wait;

// How often a worker looks for the next step of its line, for a millisecond at most. The post mostly
// sends that step a tenth of it after the answer.
const LOOKS: u32 = 512;

// How often it pauses between two looks.
const PAUSES: u32 = 32;

/// Where a worker takes its jobs. Contracts see the table of its jobs.
#[derive(Drop)]
pub(crate) struct Inbox {
    steps: JobTaker,
    views: JobTaker,
    bell: Receiver<Call>,
    is_first: bool,
    looks: u32,
}

impl Model for Inbox {
    ghost use Rattle.std.specs.Prelude.{◌≡◌};
    ghost use Rattle.revision_jobs.specs.declared.entries.Entries.{Entries};

    ghost Value = { Entries };

    ghost view = { λ i. i.steps.table };

    ghost invariant = { λ i. i.views.table ≡ i.steps.table };
}

impl Inbox {
    /// The end of one of so many workers.
    pub(crate) fn new(
        steps: JobTaker,
        views: JobTaker,
        bell: Receiver<Call>,
        is_first: bool,
        workers: u8,
    ) -> Inbox
        requires { views.table ≡ steps.table }
        ensures { result ≡ steps.table }
    {
        // A worker that is alone gets every step.
        let looks = if workers == 1 { 0 } else { LOOKS };
        Inbox {
            steps,
            views,
            bell,
            is_first,
            looks,
        }
    }

    // A step or a view, as is asked for, where there is one.
    fn try_take<R: Wait>(&mut self, rt: &R, is_step: bool) -> Option<Job>
        ensures same { self.new ≡ self.old }
        ensures own { IfSome result (λ job. IsOf self.old job.place) }
    {
        if is_step {
            self.steps.try_take(rt)
        } else {
            self.views.try_take(rt)
        }
    }

    // A job, where there is one: a view goes before a step, or the other way round.
    fn look<R: Wait>(&mut self, rt: &R, is_step_first: bool) -> Option<Job>
        ensures same { self.new ≡ self.old }
        ensures own { IfSome result (λ job. IsOf self.old job.place) }
    {
        let job = self.try_take(rt, is_step_first);
        if job.is_some() {
            return job;
        }
        self.try_take(rt, !is_step_first)
    }

    // A step or a view, as is asked for, if there is one within some looks.
    fn watch<R: Wait>(&mut self, rt: &R, is_step: bool) -> Option<Job>
        ensures same { self.new ≡ self.old }
        ensures own { IfSome result (λ job. IsOf self.old job.place) }
    {
        for _ in 0..self.looks {
            let job = self.try_take(rt, is_step);
            if job.is_some() {
                return job;
            }
            pause();
        }
        None
    }

    // What a call brings, if anything. Others leave a step to the first worker for a while.
    fn answer<R: Wait>(&mut self, rt: &R, call: Call, is_step_first: bool) -> Option<Job>
        ensures same { self.new ≡ self.old }
        ensures own { IfSome result (λ job. IsOf self.old job.place) }
    {
        match call {
            Call::Any => self.look(rt, is_step_first),
            Call::Step if self.is_first => self.look(rt, true),
            Call::Step => {
                let view = self.watch(rt, false);
                if view.is_some() {
                    return view;
                }
                self.look(rt, false)
            }
        }
    }

    // The next job, as `take` gives it.
    fn wait<R: Wait>(&mut self, rt: &R, is_step_first: bool) -> Option<Job>
        ensures same { self.new ≡ self.old }
        ensures own { IfSome result (λ job. IsOf self.old job.place) }
    {
        for _ in rt.forever() {
            let Ok(call) = self.bell.recv(rt) else {
                return self.look(rt, is_step_first);
            };
            let job = self.answer(rt, call, is_step_first);
            if job.is_some() {
                return job;
            }
        }
        unreachable!()
    }

    /// The next job, or None where there is none and the post is gone. It waits while there is
    /// none.
    pub(crate) fn take<R: Wait>(&mut self, rt: &R) -> Option<Job>
        ensures same { self.new ≡ self.old }
        ensures own { IfSome result (λ job. IsOf self.old job.place) }
    {
        self.wait(rt, false)
    }

    /// The next job of a worker that has just worked a step. The step that goes on from it is soon
    /// there, and costs this worker least; the view that comes before it may be another's.
    pub(crate) fn take_after_step<R: Wait>(&mut self, rt: &R) -> Option<Job>
        ensures same { self.new ≡ self.old }
        ensures own { IfSome result (λ job. IsOf self.old job.place) }
    {
        let step = self.watch(rt, true);
        if step.is_none() {
            return self.wait(rt, self.is_first);
        }
        if self.is_first {
            // The call for this step, or another, which isn't needed now.
            let _ = self.bell.try_recv(rt);
        }
        step
    }
}

// Lets the processor pause between two looks.
fn pause() {
    for _ in 0..PAUSES {
        spin_loop();
    }
}
