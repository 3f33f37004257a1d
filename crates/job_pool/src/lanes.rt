//! Making the way of the jobs from a post to its workers.
ghost use Rattle.std.specs.Prelude.{◌≡◌, ◌≤◌, All, IfOk, vec_len};
ghost use Rattle.job_pool.specs.Lanes.{new_outgoing};

use crate::bells::Bells;
use crate::inbox::Inbox;
use crate::outbox::Outbox;
use crossbeam_channel::bounded;
use job_queue::job_queue;
use revision_jobs::Entries;
use std::alloc::{AllocError, Global};

/// How many calls of a bell wait at most: twice as many as jobs may wait in both queues.
const CALLS: usize = 64;

/// The ends of a post for jobs of the table and of so many workers, 1 to 8. Nothing was sent yet.
pub(crate) fn lanes<'a>(
    alloc: Global,
    entries: &'a Entries,
    workers: u8,
) -> Result<(Outbox<'a>, Vec<Inbox>), AllocError>
    requires { (1 ≤ workers) × (workers ≤ 8) }
    ensures outbox { IfOk result (λ ends. ends.0 ≡ new_outgoing entries.now) }
    ensures count { IfOk result (λ ends. vec_len ends.1 ≡ workers) }
    ensures inboxes { IfOk result (λ ends. All (λ inbox. inbox ≡ entries.now) ends.1.items) }
{
    let (steps, mut step_takers) = job_queue(alloc, entries, workers)?;
    let (views, mut view_takers) = job_queue(alloc, entries, workers)?;
    let (first_bell, first_called) = bounded(alloc, CALLS)?;
    let (bell, called) = bounded(alloc, CALLS)?;
    let mut inboxes = Vec::new(alloc);
    'workers: for made in 0..workers {
        let (Some(steps), Some(views)) = (step_takers.pop(), view_takers.pop()) else {
            unreachable!()
        };
        let is_first = made == 0;
        let called = if is_first {
            first_called.clone()?
        } else {
            called.clone()?
        };
        let is_alone = workers == 1;
        inboxes.push(Inbox::new(steps, views, called, is_first && !is_alone, workers))?;
    }
    let bells = Bells::new(first_bell, bell, workers);
    Ok((Outbox::new(entries, steps, views, bells), inboxes))
}
