//! Making the queue.
ghost use Rattle.std.specs.Prelude.{◌≡◌, ◌≤◌, [], All, IfOk, vec_len};
ghost use Rattle.crossbeam_channel.specs.Claims.{view, IsSeatAt};
ghost use Rattle.crossbeam_channel.specs.Ends.{receives_on, sends_on};
ghost use Rattle.job_queue.specs.Balance.{IsLender, lending};
ghost use Rattle.job_queue.specs.Ends.{new_sender, new_taker, queue_at};
ghost use Rattle.job_queue.specs.Tables.{table_in};

use crate::rule::{Balanced, EndView, MakesTaker, NamesTable, Naming};
use crate::sender::JobSender;
use crate::taker::JobTaker;
use crossbeam_channel::{Pass, RuledReceiver, RuledSender, bounded_with};
use revision_jobs::{Entries, Job};
use std::alloc::{AllocError, Global};
use std::marker::Brand;

/// How many jobs the queue holds at most.
const CAPACITY: usize = 16;

/// A queue for jobs of the table: its sender, and so many takers, 1 to 8. Nothing was sent yet.
pub fn job_queue(
    alloc: Global,
    entries: &Entries,
    takers: u8,
) -> Result<(JobSender, Vec<JobTaker>), AllocError>
    requires { (1 ≤ takers) × (takers ≤ 8) }
    ensures sender { IfOk result (λ ends.
        ends.0 ≡ new_sender ends.0.queue takers entries.now) }
    ensures count { IfOk result (λ ends. vec_len ends.1 ≡ takers) }
    ensures takers { IfOk result (λ ends.
        All (λ t. t ≡ new_taker ends.0.queue entries.now) ends.1.items) }
{
    queue_of::<Brand>(alloc, entries, takers)
}

// A queue whose table has a name.
fn queue_of<K: Naming>(
    alloc: Global,
    entries: &Entries,
    takers: u8,
) -> Result<(JobSender, Vec<JobTaker>), AllocError>
    requires { K.table ≡ entries.now }
    ensures sender { IfOk result (λ ends.
        ends.0 ≡ new_sender ends.0.queue takers entries.now) }
    ensures count { IfOk result (λ ends. vec_len ends.1 ≡ takers) }
    ensures takers { IfOk result (λ ends.
        All (λ t. t ≡ new_taker ends.0.queue entries.now) ends.1.items) }
{
    let mut all = Vec::new(alloc);
    let (end, from, mut pass) = bounded_with::<Job, EndView, Balanced, Global>(alloc, CAPACITY)?;
    let _first = end.another::<NamesTable<K>>(&mut pass);
    'takers: for made in 0..takers {
        all.push(another_taker(&end, &from, &mut pass)?)?;
    }
    let sender = JobSender {
        end,
        pass,
        floor: 0,
    };
    Ok((sender, all))
}

// Another taker of the queue.
fn another_taker(
    end: &RuledSender<Job, EndView, Balanced>,
    from: &RuledReceiver<Job, EndView, Balanced>,
    pass: &mut Pass<Job, EndView>,
) -> Result<JobTaker, AllocError>
    requires queue { IsSeatAt (sends_on end.now) pass.old
        × (receives_on from.now ≡ sends_on end.now) }
    requires lender { IsLender (view pass.old) }
    ensures pass { IsSeatAt (sends_on end.now) pass.new
        × (view pass.new ≡ lending (view pass.old)) }
    ensures taker { IfOk result (λ t.
        t ≡ new_taker (queue_at (sends_on end.now)) (table_in (view pass.old).table)) }
{
    let theirs = end.another::<MakesTaker>(pass);
    Ok(JobTaker {
        end: from.try_clone()?,
        pass: theirs,
    })
}
