//! An end that takes jobs.
ghost use Rattle.std.specs.Prelude.{◌≡◌, ◌++◌, ◌∷◌, [], IfNone, IfSome};
ghost use Rattle.crossbeam_channel.specs.Claims.{view};
ghost use Rattle.revision_jobs.specs.Entries.{IsOf};
ghost use Rattle.job_queue.specs.Balance.{IsTaker};
ghost use Rattle.job_queue.specs.Ends.{IsPassOf};
ghost use Rattle.job_queue.specs.Slips.{NoneTwice, slip_of};

use crate::rule::{Balanced, EndView, Takes};
use crossbeam_channel::{Pass, RuledReceiver};
use revision_jobs::Job;
use std::marker::Model;
use std::sync::Wait;

/// An end that takes jobs. Contracts see its queue, the table of its jobs, and the slips of those
/// that it took.
pub struct JobTaker {
    pub(crate) end: RuledReceiver<Job, EndView, Balanced>,
    pub(crate) pass: Pass<Job, EndView>,
}

// Written out, as a derived one is proved again in each crate above.
impl Drop for JobTaker {
    fn drop(self) {
        let JobTaker { end: _, pass: _ } = self;
    }
}

impl Model for JobTaker {
    ghost use Rattle.crossbeam_channel.specs.Claims.{view as known, IsSeatAt};
    ghost use Rattle.crossbeam_channel.specs.Ends.{receives_on};
    ghost use Rattle.job_queue.specs.Ends.{Taking, queue_at};

    ghost Value = { Taking };

    ghost use Rattle.std.specs.Coded.{codes};
    ghost use Rattle.worlds.specs.World.{coded_world};

    ghost coded = { Prim.hlevel (codes, coded_world) };

    ghost use Rattle.job_queue.specs.Balance.{IsTaker};
    ghost use Rattle.job_queue.specs.Tables.{table_in};

    ghost view = { λ t. record {
      queue = queue_at (receives_on t.end);
      table = table_in (known t.pass).table;
      taken = (known t.pass).taken;
    } };

    ghost invariant = { λ t. IsSeatAt (receives_on t.end) t.pass × IsTaker (known t.pass) };
}

impl JobTaker {
    /// Takes a job, or answers None where there is none and the sender is gone. It waits while there
    /// is none.
    pub fn take<R: Wait>(&mut self, rt: &R) -> Option<Job>
        ensures queue { self.new.queue ≡ self.old.queue }
        ensures table { self.new.table ≡ self.old.table }
        ensures taken { IfSome result (λ job. self.new.taken ≡ self.old.taken ++ slip_of job ∷ []) }
        ensures own { IfSome result (λ job. IsOf self.old.table job.place) }
        ensures once { IfSome result (λ _. NoneTwice self.new.taken) }
        ensures none { IfNone result (self.new.taken ≡ self.old.taken) }
    {
        self.end.recv_as::<Takes, R>(rt, &mut self.pass).ok()
    }

    /// Takes a job, or answers None where the queue was empty at a moment of the call. It doesn't
    /// wait for one.
    pub fn try_take<R: Wait>(&mut self, rt: &R) -> Option<Job>
        ensures queue { self.new.queue ≡ self.old.queue }
        ensures table { self.new.table ≡ self.old.table }
        ensures taken { IfSome result (λ job. self.new.taken ≡ self.old.taken ++ slip_of job ∷ []) }
        ensures own { IfSome result (λ job. IsOf self.old.table job.place) }
        ensures once { IfSome result (λ _. NoneTwice self.new.taken) }
        ensures none { IfNone result (self.new.taken ≡ self.old.taken) }
    {
        self.end.try_recv_as::<Takes, R>(rt, &mut self.pass).ok()
    }

    /// What it knows, as the sender takes it back.
    pub(crate) fn into_pass(self) -> Pass<Job, EndView>
        ensures pass { IsPassOf self.queue result }
        ensures taker { IsTaker (view result) }
        ensures taken { (view result).taken ≡ self.taken }
    {
        let JobTaker { end: _, pass } = self;
        pass
    }
}
