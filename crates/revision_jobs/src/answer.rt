//! Jobs and their answers.
ghost use Rattle.std.specs.Prelude.{◌≡◌, IfOk};
ghost use Rattle.revision_jobs.specs.Answer.{IsRightAnswer, outcome_of, result_in};

use crate::entries::Place;
use basics::Listing;
use plane_core::Plane;
use std::alloc::AllocError;
use std::marker::Model;
use std::sync::Arc;
use step_engine::EvolveFault;

/// What a worker is asked: to compute the entry at a place, under a number.
pub struct Job {
    pub number: u32,
    pub place: Place,
}

// Written out, as a derived one is proved again in each crate above.
impl Drop for Job {
    fn drop(self) {
        let Job {
            number: _,
            place: _,
        } = self;
    }
}

/// What came of a job.
#[derive(Drop)]
pub enum Outcome {
    /// The pattern of a step.
    Plane(Arc<Plane>),
    /// The text of a view.
    Text(Arc<Listing<u8>>),
    /// Why there is none: no room, which is outcome_of of a step alone, a stop, or 'out of memory'.
    Gave(EvolveFault),
}

/// The answer to a job. A value in it is the value of the job's entry, and where it gave up for want
/// of room, the entry has none at the limit that it was worked with. That is why `work`, `work_by` and
/// `again` alone make answers.
///
/// Contracts see the job, the limit, and the value or why there is none.
pub struct Answer {
    pub(crate) job: Job,
    /// How many squares a step could keep when the job was worked.
    pub(crate) limit: u32,
    pub(crate) outcome: Outcome,
}

// Written out, as a derived one is proved again in each crate above.
impl Drop for Answer {
    fn drop(self) {
        let Answer {
            job: _,
            limit: _,
            outcome: _,
        } = self;
    }
}

/// The parts of an answer.
#[derive(Drop)]
pub struct Parts {
    pub job: Job,
    /// How many squares a step could keep when the job was worked.
    pub limit: u32,
    pub outcome: Outcome,
}

impl Model for Answer {
    ghost use Rattle.std.specs.Coded.{codes};
    ghost use Rattle.worlds.specs.World.{coded_world};
    ghost use Rattle.revision_jobs.specs.Answer.{JobResult};

    ghost Value = { JobResult };

    ghost coded = { Prim.hlevel (codes, coded_world) };

    ghost use Rattle.revision_jobs.specs.Answer.{IsRightAnswer, outcome_of};

    ghost view = { λ answer. record {
      job = answer.job;
      limit = answer.limit;
      outcome = outcome_of answer.outcome;
    } };

    ghost invariant = { λ answer. IsRightAnswer answer.job answer.limit (outcome_of answer.outcome) };
}

impl Job {
    // The same job once more.
    fn again(&self) -> Job
        ensures { result ≡ self.now }
    {
        Job {
            number: self.number,
            place: self.place.share(),
        }
    }
}

impl Outcome {
    // An equal outcome, which shares what this one has.
    fn again(&self) -> Result<Outcome, AllocError>
        ensures { IfOk result (λ outcome. outcome_of outcome ≡ outcome_of self.now) }
    {
        match self {
            Outcome::Plane(plane) => Ok(Outcome::Plane(Arc::try_clone(plane)?)),
            Outcome::Text(text) => Ok(Outcome::Text(Arc::try_clone(text)?)),
            Outcome::Gave(fault) => Ok(Outcome::Gave(*fault)),
        }
    }
}

impl Answer {
    /// The number of the job.
    pub fn number(&self) -> u32
        ensures { result ≡ self.now.job.number }
    {
        self.job.number
    }

    /// The place of the job's entry.
    pub fn place(&self) -> &Place
        ensures { result.now ≡ self.now.job.place }
    {
        &self.job.place
    }

    /// How many squares a step could keep when the job was worked.
    pub fn limit(&self) -> u32
        ensures { result ≡ self.now.limit }
    {
        self.limit
    }

    /// The job, what came of it, and the limit that it was worked with.
    pub fn into_parts(self) -> Parts
        ensures parts { result_in result ≡ self }
        ensures right { IsRightAnswer result.job result.limit (outcome_of result.outcome) }
    {
        let Answer {
            job,
            limit,
            outcome,
        } = self;
        Parts {
            job,
            limit,
            outcome,
        }
    }

    /// The same answer once more. It takes no memory: pattern and text are shared, which is refused
    /// only where no more owners can be counted.
    pub fn again(&self) -> Result<Answer, AllocError>
        ensures { IfOk result (λ answer. answer ≡ self.now) }
    {
        Ok(Answer {
            job: self.job.again(),
            limit: self.limit,
            outcome: self.outcome.again()?,
        })
    }
}
