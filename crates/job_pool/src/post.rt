//! The post whose jobs workers take.
ghost use Rattle.std.specs.Prelude.{◌≡◌};

use crate::answers::AnswerReceiver;
use crate::outbox::Outbox;
use crossbeam_channel::TryRecvError;
use revision_jobs::{Job, Post, PostRecord, Received, Sent, Worked};
use std::marker::Model;
use std::sync::Wait;

/// The post of a pool. A send is an offer to the queue of its job's kind, and a receive waits for
/// an answer: it is Ended where every worker is gone. `try_receive` doesn't wait; for a moment it
/// may see nothing though an answer has just come.
///
/// Contracts see its table, how many squares a step may keep, the slips of the jobs that it took,
/// and its history.
#[derive(Drop)]
pub struct PoolPost<'a, R: Wait> {
    rt: &'a R,
    jobs: Outbox<'a>,
    back: AnswerReceiver,
    history: PostRecord,
}

impl<'a, R: Wait> Model for PoolPost<'a, R> {
    ghost use Rattle.std.specs.Prelude.{◌≡◌};
    ghost use Rattle.std.specs.Coded.{codes};
    ghost use Rattle.worlds.specs.World.{coded_world};
    ghost use Rattle.job_pool.specs.Pool.{Pool};

    ghost Value = { Pool };

    ghost coded = { Prim.hlevel (codes, coded_world) };

    ghost view = { λ p. record {
      table = p.jobs.table;
      limit = p.back.limit;
      sent = p.jobs.sent;
      history = p.history;
    } };

    ghost invariant = { λ p. p.back.table ≡ p.jobs.table };
}

impl<'a, R: Wait> PoolPost<'a, R> {
    ghost use Rattle.std.specs.Prelude.{IfOk};
    ghost use Rattle.revision_jobs.specs.Posted.{IsOwnAnswer, Receives};
    ghost use Rattle.job_pool.specs.Pool.{pool_over, pool_view};

    pub(crate) fn new(rt: &'a R, jobs: Outbox<'a>, back: AnswerReceiver) -> PoolPost<'a, R>
        requires { back.table ≡ jobs.table }
        ensures { result ≡ pool_over jobs.entry back.limit }
    {
        PoolPost {
            rt,
            jobs,
            back,
            history: PostRecord::none(),
        }
    }

    // Gives what came back, and notes it.
    fn give(&mut self, came: Result<Worked, TryRecvError>) -> Received
        requires { IfOk came (IsOwnAnswer self.old.table self.old.limit) }
        ensures { Receives (pool_view self.old) (pool_view self.new) result }
    {
        let received = match came {
            Ok(worked) => {
                self.jobs.note_answer(worked.answer().place());
                return self.history.note_worked(worked);
            }
            Err(TryRecvError::Empty) => Received::Nothing,
            Err(TryRecvError::Disconnected) => Received::Ended,
        };
        self.history.note_received(&received);
        received
    }
}

impl<'a, R: Wait> Post for PoolPost<'a, R> {
    ghost use Rattle.std.specs.Prelude.{◌≡◌, ◌≤◌};
    ghost use Rattle.revision_jobs.specs.Entries.{IsOf};
    ghost use Rattle.revision_jobs.specs.Posted.{history_sent};
    ghost use Rattle.job_queue.specs.Ends.{IsOffered};
    ghost use Rattle.job_queue.specs.Slips.{floor_of};
    ghost use Rattle.job_pool.specs.Pool.{pool_view};

    ghost view = { pool_view };

    fn send(&mut self, job: Job) -> Sent
        requires own { IsOf self.old.table job.place }
        requires rises { floor_of self.old.sent ≤ job.number }
        ensures table { (self.new.table ≡ self.old.table) × (self.new.limit ≡ self.old.limit) }
        ensures history { self.new.history ≡ history_sent self.old.history result }
        ensures offered { IsOffered job self.old.sent self.new.sent result }
    {
        let sent = self.jobs.offer(self.rt, job);
        self.history.note_sent(&sent);
        sent
    }

    fn receive(&mut self) -> Received {
        let came = self.back.receive(self.rt);
        self.give(came)
    }

    fn try_receive(&mut self) -> Received {
        let came = self.back.try_receive(self.rt);
        self.give(came)
    }

    fn floor(&self) -> u64 {
        self.jobs.floor()
    }
}
