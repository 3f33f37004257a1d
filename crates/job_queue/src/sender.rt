//! The end that jobs are offered to.
ghost use Rattle.std.specs.Prelude.{◌≡◌, ◌≤◌};
ghost use Rattle.revision_jobs.specs.Entries.{IsOf};
ghost use Rattle.job_queue.specs.Ends.{AddsUp, IsOffered, with_back, with_sent};
ghost use Rattle.job_queue.specs.Slips.{floor_of};

use crate::rule::{Balanced, EndView, Sends, Settles, TakesBack};
use crate::taker::JobTaker;
use crossbeam_channel::{Pass, RuledSender, TrySendError};
use revision_jobs::{Job, Sent};
use std::marker::Model;
use std::sync::Wait;

/// The one end that jobs are offered to. Contracts see its queue, the table of its jobs, the slips of
/// those that it sent, what the takers took that came back to it, and how many takers didn't.
pub struct JobSender {
    pub(crate) end: RuledSender<Job, EndView, Balanced>,
    pub(crate) pass: Pass<Job, EndView>,
    pub(crate) floor: u64,
}

// Written out, as a derived one is proved again in each crate above.
impl Drop for JobSender {
    fn drop(self) {
        let JobSender {
            end: _,
            pass: _,
            floor: _,
        } = self;
    }
}

impl Model for JobSender {
    ghost use Rattle.std.specs.Prelude.{◌≡◌};
    ghost use Rattle.crossbeam_channel.specs.Claims.{view as known, IsSeatAt};
    ghost use Rattle.crossbeam_channel.specs.Ends.{ruled_capacity, sends_on};
    ghost use Rattle.job_queue.specs.Ends.{Sending, queue_at};

    ghost Value = { Sending };

    ghost use Rattle.std.specs.Coded.{codes};
    ghost use Rattle.worlds.specs.World.{coded_world};

    ghost coded = { Prim.hlevel (codes, coded_world) };

    ghost use Rattle.job_queue.specs.Balance.{IsSending};
    ghost use Rattle.job_queue.specs.Slips.{floor_of};
    ghost use Rattle.job_queue.specs.Tables.{table_in};

    ghost view = { λ s. record {
      queue = queue_at (sends_on s.end);
      table = table_in (known s.pass).table;
      sent = (known s.pass).sent;
      back = (known s.pass).taken;
      out = (known s.pass).out;
    } };

    ghost invariant = { λ s. IsSeatAt (sends_on s.end) s.pass
        × (ruled_capacity (sends_on s.end) ≡ 16)
        × IsSending (known s.pass)
        × (s.floor ≡ floor_of (known s.pass).sent) };
}

impl JobSender {
    /// Offers a job, whose number is above all that this sender sent. It is Full only where the
    /// queue held 16 jobs at a moment of the call, and Closed where no taker is left; then the job
    /// comes back.
    pub fn offer<R: Wait>(&mut self, rt: &R, job: Job) -> Sent
        requires own { IsOf self.old.table job.place }
        requires rises { floor_of self.old.sent ≤ job.number }
        ensures table { self.new.table ≡ self.old.table }
        ensures sent { IsOffered job self.old.sent self.new.sent result }
        ensures others { self.new ≡ with_sent self.new.sent self.old }
    {
        let floor = u64::from(job.number) + 1;
        match self.end.try_send_as::<Sends, R>(rt, &mut self.pass, job) {
            Ok(()) => {
                self.floor = floor;
                Sent::Taken
            }
            Err(TrySendError::Full(back)) => Sent::Full(back),
            Err(TrySendError::Disconnected(back)) => Sent::Closed(back),
            Err(TrySendError::OutOfMemory(_)) => unreachable!(),
        }
    }

    /// One more than the number that was sent last, 0 before any.
    pub fn floor(&self) -> u64
        ensures { result ≡ floor_of self.now.sent }
    {
        self.floor
    }

    /// Takes a taker of this queue back, with what it took.
    pub fn take_back(&mut self, taker: JobTaker)
        requires { taker.queue ≡ self.old.queue }
        ensures { self.new ≡ with_back taker self.old }
    {
        self.end
            .absorb::<TakesBack>(&mut self.pass, taker.into_pass());
    }

    /// Where all takers came back, what they took is, together with what waits still, what was
    /// sent, each job once.
    pub fn settle(&mut self)
        requires { self.old.out ≡ 0 }
        ensures same { self.new ≡ self.old }
        ensures adds_up { AddsUp self.old.sent self.old.back }
    {
        self.end.learn_as::<Settles>(&mut self.pass);
    }
}
