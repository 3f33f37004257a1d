//! What a worker does.
ghost use Rattle.std.specs.Prelude.{◌≡◌, IfSome};
ghost use Rattle.revision_jobs.specs.Entries.{IsOf};
ghost use Rattle.job_pool.specs.Home.{terms_of};

use crate::answers::AnswerSender;
use crate::inbox::Inbox;
use bumpalo::Bump;
use revision_jobs::{Entries, Entry, Gate, Job, Worked, work, work_by};
use std::alloc::Global;
use std::sync::Wait;

// An engine is given up after so many jobs, since its arena keeps some bytes of each.
const MOST_JOBS: u32 = 4096;

// With fewer live cells a pattern's squares are soon made anew.
const MANY_CELLS: u128 = 64;

/// Works the jobs that it takes, each with its entry's own stop, and sends their answers back, until
/// there is no job and the sender is gone. What nobody waits for any more is dropped.
pub(crate) fn work_all<R: Wait, G: Gate>(
    rt: &R,
    alloc: Global,
    entries: &Entries,
    mut jobs: Inbox,
    mut back: AnswerSender,
    mut gate: G,
    squares: u32,
)
where
    G: Drop,
    requires { (jobs ≡ entries.now) × (back ≡ terms_of entries.now squares) }
{
    let mut next = jobs.take(rt);
    for _ in rt.forever() {
        let Some(job) = next else {
            break;
        };
        next = work_alike(
            rt, alloc, entries, &mut jobs, &mut back, &mut gate, squares, job,
        );
    }
}

// Works a job, and those that are taken next as long as the engine for its rule serves them. The job
// that wants another engine isn't worked.
fn work_alike<R: Wait, G: Gate>(
    rt: &R,
    alloc: Global,
    entries: &Entries,
    jobs: &mut Inbox,
    back: &mut AnswerSender,
    gate: &mut G,
    squares: u32,
    job: Job,
) -> Option<Job>
    requires table { (jobs.old ≡ entries.now) × (back.old ≡ terms_of entries.now squares) }
    requires own { IsOf entries.now job.place }
    ensures table { (jobs.new ≡ entries.now) × (back.new ≡ terms_of entries.now squares) }
    ensures own { IfSome result (λ job. IsOf entries.now job.place) }
{
    let arena = Bump::new(alloc);
    let Ok(Some(mut engine)) = entries.at(&job.place).engine(alloc, &arena, squares) else {
        let mut stop = entries.stop(&job.place);
        let answer = work(alloc, job, entries, gate, &mut stop, squares);
        back.send(rt, Worked::by(answer, stop));
        return jobs.take(rt);
    };
    let mut next = Some(job);
    for _ in 0..MOST_JOBS {
        let job = next?;
        if !entries.at(&job.place).is_served_by(engine.rule()) {
            return Some(job);
        }
        let has_line = has_line(entries.at(&job.place));
        let mut stop = entries.stop(&job.place);
        let answer = work_by(alloc, &mut engine, job, entries, gate, &mut stop);
        back.send(rt, Worked::by(answer, stop));
        next = if has_line {
            jobs.take_after_step(rt)
        } else {
            jobs.take(rt)
        };
    }
    next
}

// Whether the squares of what comes of the entry are worth more than the looks for the next step of
// its line: it is a step of a pattern that has many cells.
fn has_line(entry: &Entry) -> bool {
    match entry {
        Entry::Step(step) => step.from.population() >= MANY_CELLS,
        Entry::View(_) => false,
    }
}
