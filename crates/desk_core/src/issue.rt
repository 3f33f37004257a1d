//! Issuing jobs.
ghost use Rattle.std.specs.Prelude.{◌≡◌, ◌<◌, Some, IfOk, IfErr, OnErr};
ghost use Rattle.dependency_book.specs.BookState.{given_of, row_of};
ghost use Rattle.dependency_book.specs.Needs.{IsNext};
ghost use Rattle.dependency_book.specs.Right.{IsRightBook};
ghost use Rattle.dependency_book.specs.declared.row.RowState.TheVariants.{Empty};
ghost use Rattle.desk_core.specs.Issued.{IsIssued, IssuesFor, RefusesIssue};

use crate::desk::Desk;
use dependency_book::Need;
use revision_jobs::Job;
use std::alloc::AllocError;
use std::sync::Wait;
use thiserror::Error;

/// How many numbers of jobs a desk gives at most.
const MOST_NUMBERS: u32 = 16_777_216;

/// Why a job isn't issued. A refused issue changes no row.
#[derive(Clone, Copy, Debug, PartialEq, Eq, Error)]
pub enum IssueFault {
    /// 16,777,216 numbers were given.
    #[error("every number of a job was given")]
    NumbersSpent,
    /// Out of memory.
    #[error("there is not enough memory")]
    NoMemory,
}

impl From<AllocError> for IssueFault {
    ghost use Rattle.std.specs.Prelude.{◌≡◌};
    ghost use Rattle.desk_core.specs.declared.issue.IssueFault.TheVariants.{NoMemory};

    ghost from_gives = { λ _ fault. fault ≡ NoMemory };

    fn from(_error: AllocError) -> IssueFault {
        IssueFault::NoMemory
    }
}

impl Desk<'_> {
    /// A job for what is to be computed next, which nobody computes yet; None where nothing is, and
    /// then nothing is pending unless a job is out. Its number is the next one, its entry stands in
    /// the desk's table, and the row that needs it expects its answer. NumbersSpent where every
    /// number was given, and then nothing changes; else NoMemory, and then one more
    /// refusal is counted and nothing else changes. It may wait for another thread that
    /// pushes an entry.
    pub fn issue(&mut self, rt: &impl Wait) -> Result<Option<Job>, IssueFault>
        ensures issued { IfOk result (IsIssued self.old self.new) }
        ensures refused { IfErr result (RefusesIssue self.old self.new) }
        ensures right { IsRightBook self.new }
    {
        let Some(need) = self.book.next_need() else {
            return Ok(None);
        };
        let number = self.book.given();
        if number >= MOST_NUMBERS {
            return Err(IssueFault::NumbersSpent);
        }
        match self.issue_for(rt, &need, number) {
            Ok(job) => Ok(Some(job)),
            Err(refused) => {
                self.book.note_refusal(refused);
                Err(IssueFault::NoMemory)
            }
        }
    }

    // Issues the job of this number for a need, in whose row nothing stands. Refused, nothing
    // changes.
    fn issue_for(&mut self, rt: &impl Wait, need: &Need, number: u32) -> Result<Job, AllocError>
        requires next { IsNext self.old (Some need.now) × (row_of self.old need.now ≡ Empty) }
        requires number { (number ≡ given_of self.old) × (number < 16777216) }
        ensures issued { IfOk result (λ job. IssuesFor self.old self.new job need.now) }
        ensures unchanged { OnErr result (self.new ≡ self.old) }
        ensures right { IsRightBook self.new }
    {
        let entry = self.book.entry(need)?;
        let place = self.entries.push(rt, entry)?;
        let expected = Job {
            number,
            place: place.share(),
        };
        self.book.expect(need, expected)?;
        Ok(Job { number, place })
    }
}
