//! The job that a settling hasn't sent yet.

use crate::desk::Desk;
use revision_jobs::Job;

// The job that was issued last, until it is sent.
#[derive(Drop)]
pub(crate) enum Unsent {
    Nothing,
    // It is to be sent next.
    Ready(Job),
    // The post had no room for it. An answer is asked for before it is sent again.
    Waiting(Job),
}

impl Unsent {
    ghost use Rattle.std.specs.Prelude.{◌≡◌, ◌↔◌, IsTrue};
    ghost use Rattle.desk_core.specs.Progress.{CancelsAny, job_in};

    // There is none.
    pub(crate) fn is_nothing(&self) -> bool
        ensures { IsTrue result ↔ (self.now ≡ Unsent.Nothing) }
    {
        matches!(self, Unsent::Nothing)
    }

    // Cancels it, if there is one.
    pub(crate) fn cancel(self, desk: &mut Desk<'_>)
        ensures { CancelsAny (job_in self) desk.old desk.new }
    {
        match self {
            Unsent::Nothing => {}
            Unsent::Ready(job) | Unsent::Waiting(job) => {
                desk.cancel(job.number);
            }
        }
    }
}
