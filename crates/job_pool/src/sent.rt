//! The jobs that were taken, for clauses alone.
ghost use Rattle.std.specs.Prelude.{◌≡◌, ◌++◌, ◌∷◌, []};
ghost use Rattle.job_queue.specs.Slips.{slip_of};

use job_queue::Slip;
use revision_jobs::Job;
use std::marker::Model;
use std::mem;
use std::snapshot::Snapshot;

/// No job, or one behind those before it. It holds none of them.
#[derive(Drop)]
pub(crate) enum Past {
    Nothing,
    Then(Snapshot<Past>, Snapshot<Job>),
}

/// The slips of the jobs that a post took, the latest last, as clauses see them. It takes no bytes
/// and no memory, and no job can be read from it.
#[derive(Drop)]
pub(crate) struct SentJobs {
    past: Snapshot<Past>,
}

impl Model for SentJobs {
    ghost use Rattle.std.specs.Prelude.{List};
    ghost use Rattle.job_queue.specs.declared.rule.Slip.{Slip};

    ghost Value = { List Slip };

    ghost use Rattle.job_pool.specs.Past.{list_of};

    ghost view = { λ sent. list_of sent.past.value };
}

impl SentJobs {
    /// No jobs.
    pub(crate) fn none() -> SentJobs
        ensures { result ≡ [] }
    {
        SentJobs {
            past: Snapshot::of(&Past::Nothing),
        }
    }

    /// Notes one more job.
    pub(crate) fn push(&mut self, job: Snapshot<Job>)
        ensures { self.new ≡ self.old ++ slip_of job.value ∷ [] }
    {
        let before = mem::replace(&mut self.past, Snapshot::of(&Past::Nothing));
        self.past = Snapshot::of(&Past::Then(before, job));
    }
}
