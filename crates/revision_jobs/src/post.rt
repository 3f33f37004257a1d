//! Where jobs are sent and answers come from.
ghost use Rattle.std.specs.Prelude.{◌≡◌, ◌≤◌};
ghost use Rattle.revision_jobs.specs.Entries.{IsOf};
ghost use Rattle.revision_jobs.specs.Posted.{Receives, Sends};

use crate::answer::{Answer, Job};

/// What came of a send. A job that wasn't taken comes back.
#[derive(Drop)]
pub enum Sent {
    /// The post has the job.
    Taken,
    /// It holds as many jobs as it may.
    Full(Job),
    /// It takes no more jobs.
    Closed(Job),
}

/// What came of a receive.
#[derive(Drop)]
pub enum Received {
    /// The answer to a job.
    Answer(Answer),
    /// There is no answer now.
    Nothing,
    /// No answer comes any more.
    Ended,
}

/// A post takes jobs of one table of entries, whose numbers rise, and gives their answers.
///
/// Contracts see it as a `PostView`: its table, and the limit of the squares that a step may keep,
/// at which each answer was worked; its floor, which is one more than the greatest number that it
/// took, 0 before any; every answer that it gave so far, the latest last; how often it was asked to
/// send or to receive, how often a flag was seen raised for its answers, and whether it said Closed
/// or Ended. It answers that a job was stopped exactly where a flag was seen raised for the answer.
/// A post that is prompt holds at most one job, takes a job where it holds none, and answers the one
/// that it holds at the next receive.
///
/// `Sends` and `Receives` say what being asked changes of that.
pub trait Post {
    ghost use Rattle.revision_jobs.specs.Posted.{PostView};

    ghost view: { Self → PostView };

    /// Hands a job on. Its number is at least the floor.
    fn send(&mut self, job: Job) -> Sent
        requires own { IsOf (view self.old).table job.place }
        requires rises { (view self.old).floor ≤ job.number }
        ensures { Sends job (view self.old) (view self.new) result };

    /// Gives an answer. It may wait for one.
    fn receive(&mut self) -> Received
        ensures { Receives (view self.old) (view self.new) result };

    /// Gives an answer, if there is one already. It waits for nobody.
    fn try_receive(&mut self) -> Received
        ensures { Receives (view self.old) (view self.new) result };

    /// One more than the greatest number that it took, 0 before any.
    fn floor(&self) -> u64
        ensures { result ≡ (view self.now).floor };
}
