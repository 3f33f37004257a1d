//! The end of a post to which its jobs go: steps and views in queues of their own, and bells.
ghost use Rattle.std.specs.Prelude.{◌≡◌, ◌≤◌, []};
ghost use Rattle.revision_jobs.specs.Entries.{IsOf};
ghost use Rattle.job_queue.specs.Ends.{IsOffered};
ghost use Rattle.job_queue.specs.Slips.{floor_of};
ghost use Rattle.job_pool.specs.Lanes.{new_outgoing};

use crate::bells::Bells;
use crate::sent::SentJobs;
use job_queue::JobSender;
use revision_jobs::{Entries, Entry, Job, Place, Sent};
use std::marker::Model;
use std::snapshot::Snapshot;
use std::sync::Wait;

/// Where the jobs of a post go. Workers are called for each. Contracts see the table of its jobs, and
/// the slips of those that it sent.
#[derive(Drop)]
pub(crate) struct Outbox<'a> {
    entries: &'a Entries,
    steps: JobSender,
    views: JobSender,
    bells: Bells,
    sent: SentJobs,
    floor: u64,
}

impl<'a> Model for Outbox<'a> {
    ghost use Rattle.std.specs.Prelude.{◌≡◌};
    ghost use Rattle.job_pool.specs.Lanes.{Outgoing};

    ghost Value = { Outgoing };

    ghost view = { λ o. record { table = o.steps.table; sent = o.sent } };

    ghost use Rattle.job_queue.specs.Slips.{floor_of};
    ghost use Rattle.job_pool.specs.Lanes.{IsSplit};

    ghost invariant = { λ o. (o.entries.now ≡ o.steps.table) × (o.views.table ≡ o.steps.table)
        × IsSplit o.steps.sent o.views.sent o.sent × (o.floor ≡ floor_of o.sent) };
}

impl<'a> Outbox<'a> {
    /// The end of a post of the table, over two queues to which nothing was sent.
    pub(crate) fn new(
        entries: &'a Entries,
        steps: JobSender,
        views: JobSender,
        bells: Bells,
    ) -> Outbox<'a>
        requires steps { (steps.table ≡ entries.now) × (steps.sent ≡ []) }
        requires views { (views.table ≡ entries.now) × (views.sent ≡ []) }
        ensures { result ≡ new_outgoing entries.now }
    {
        Outbox {
            entries,
            steps,
            views,
            bells,
            sent: SentJobs::none(),
            floor: 0,
        }
    }

    // Offers a step.
    fn offer_step<R: Wait>(&mut self, rt: &R, job: Job) -> Sent
        requires own { IsOf self.old.table job.place }
        requires rises { floor_of self.old.sent ≤ job.number }
        ensures table { self.new.table ≡ self.old.table }
        ensures sent { IsOffered job self.old.sent self.new.sent result }
    {
        let noted = Snapshot::of(&job);
        let floor = u64::from(job.number) + 1;
        let sent = self.steps.offer(rt, job);
        if let Sent::Taken = sent {
            self.sent.push(noted);
            self.floor = floor;
        }
        sent
    }

    // Offers a view.
    fn offer_view<R: Wait>(&mut self, rt: &R, job: Job) -> Sent
        requires own { IsOf self.old.table job.place }
        requires rises { floor_of self.old.sent ≤ job.number }
        ensures table { self.new.table ≡ self.old.table }
        ensures sent { IsOffered job self.old.sent self.new.sent result }
    {
        let noted = Snapshot::of(&job);
        let floor = u64::from(job.number) + 1;
        let sent = self.views.offer(rt, job);
        if let Sent::Taken = sent {
            self.sent.push(noted);
            self.floor = floor;
        }
        sent
    }

    /// Offers a job to the queue of its kind, and calls workers where it is taken. It is Full only
    /// where that queue held 16 jobs at a moment of the call, and Closed where no worker is left;
    /// then the job comes back.
    pub(crate) fn offer<R: Wait>(&mut self, rt: &R, job: Job) -> Sent
        requires own { IsOf self.old.table job.place }
        requires rises { floor_of self.old.sent ≤ job.number }
        ensures table { self.new.table ≡ self.old.table }
        ensures sent { IsOffered job self.old.sent self.new.sent result }
    {
        match self.entries.at(&job.place) {
            Entry::Step(_) => {
                let sent = self.offer_step(rt, job);
                if let Sent::Taken = &sent {
                    self.bells.call_for_step(rt);
                }
                sent
            }
            Entry::View(_) => {
                let sent = self.offer_view(rt, job);
                if let Sent::Taken = &sent {
                    self.bells.call_for_view(rt);
                }
                sent
            }
        }
    }

    /// Notes that a job of this place was answered.
    pub(crate) fn note_answer(&mut self, place: &Place)
        requires { IsOf self.old.table place.now }
        ensures { self.new ≡ self.old }
    {
        match self.entries.at(place) {
            Entry::Step(_) => self.bells.note_step(),
            Entry::View(_) => self.bells.note_view(),
        }
    }

    /// One more than the number that was sent last, 0 before any.
    pub(crate) fn floor(&self) -> u64
        ensures { result ≡ floor_of self.now.sent }
    {
        self.floor
    }
}
