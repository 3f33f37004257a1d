//! Starting workers, and calling a body on their post.
ghost use Rattle.std.specs.Prelude.{◌≡◌, ◌≤◌, IfErr, IfOk, vec_len};
ghost use Rattle.job_pool.specs.Lanes.{new_outgoing};
ghost use Rattle.job_pool.specs.Home.{terms_of};
ghost use Rattle.job_pool.specs.Pool.{AreEnds, CallGives, CallTakes, new_pool, pool_over};

use crate::answers::{AnswerReceiver, AnswerSender, answer_queue};
use crate::fault::{NoPool, PoolFault};
use crate::inbox::Inbox;
use crate::lanes::lanes;
use crate::outbox::Outbox;
use crate::post::PoolPost;
use crate::worker::work_all;
use revision_jobs::{Entries, Gate};
use std::alloc::Global;
use std::sync::Wait;
use std::thread;
use std::thread::{Scope, Threads};

/// Calls the body once, on a post of the table that took no job yet, whose jobs are worked by a
/// thread for each gate, 1 to 8, and on the input; a step keeps at most so many squares. The answer
/// is the body's. The threads have ended when it returns.
///
/// NoWorker where a thread was refused, NoMemory where a growth was. Then the body wasn't called:
/// the input comes back, and gates and body are given up.
pub fn pool<R, G, I, F, T>(
    rt: &R,
    alloc: Global,
    entries: &Entries,
    gates: Vec<G>,
    squares: u32,
    input: I,
    body: F,
) -> Result<T, NoPool<I>>
where
    R: Threads + Wait + Sync,
    G: Gate + Send + Drop,
    I: Drop,
    F: FnOnce(&mut PoolPost<'_, R>, I) -> T + Drop,
    requires gates { (1 ≤ vec_len gates) × (vec_len gates ≤ 8) }
    requires body { CallTakes F.FnOnce body (new_pool entries.now squares) input }
    ensures called { IfOk result (CallGives F.FnOnce body (new_pool entries.now squares) input) }
    ensures refused { IfErr result (λ none. none.input ≡ input) }
{
    let count = gates.len() as u8;
    let Ok((outbox, inboxes)) = lanes(alloc, entries, count) else {
        return Err(NoPool::of(PoolFault::NoMemory, input));
    };
    let Ok((senders, receiver)) = answer_queue(alloc, entries, squares, count) else {
        return Err(NoPool::of(PoolFault::NoMemory, input));
    };
    thread::scope(
        thread::scope_env(),
        rt,
        move |scope| -> Result<T, NoPool<I>>
            requires ends { (outbox ≡ new_outgoing entries.now)
                × (receiver ≡ terms_of entries.now squares) }
            requires workers { AreEnds entries.now squares (vec_len gates)
                inboxes.items senders.items }
            requires body { CallTakes F.FnOnce body (new_pool entries.now squares) input }
            ensures called { IfOk result
                (CallGives F.FnOnce body (new_pool entries.entry.now squares) input) }
            ensures refused { IfErr result (λ none. none.input ≡ input) }
        {
            match start_all(scope, rt, alloc, entries, gates, inboxes, senders, squares) {
                Ok(()) => Ok(attend(rt, outbox, receiver, input, body)),
                Err(fault) => Err(NoPool::of(fault, input)),
            }
        },
    )
}

// Starts a worker for each gate, with an inbox and a sender. It ends where a thread is refused.
fn start_all<'s, E, R, G>(
    scope: &Scope<'s, E>,
    rt: &'s R,
    alloc: Global,
    entries: &'s Entries,
    mut gates: Vec<G>,
    mut inboxes: Vec<Inbox>,
    mut senders: Vec<AnswerSender>,
    squares: u32,
) -> Result<(), PoolFault>
where
    R: Wait + Sync,
    G: Gate + Send + Drop + 's,
    requires { AreEnds entries.now squares (vec_len gates) inboxes.items senders.items }
{
    let count = gates.len();
    'crew: for made in 0..count {
        let (Some(gate), Some(jobs), Some(back)) = (gates.pop(), inboxes.pop(), senders.pop())
        else {
            unreachable!()
        };
        start(scope, rt, alloc, entries, jobs, back, gate, squares)?;
    }
    Ok(())
}

// Starts a worker, unless its thread is refused.
fn start<'s, E, R, G>(
    scope: &Scope<'s, E>,
    rt: &'s R,
    alloc: Global,
    entries: &'s Entries,
    jobs: Inbox,
    back: AnswerSender,
    gate: G,
    squares: u32,
) -> Result<(), PoolFault>
where
    R: Wait + Sync,
    G: Gate + Send + Drop + 's,
    requires { (jobs ≡ entries.now) × (back ≡ terms_of entries.now squares) }
{
    let worker = move ||
        requires { (jobs ≡ entries.now) × (back ≡ terms_of entries.now squares) }
    { work_all(rt, alloc, entries, jobs, back, gate, squares) };
    match scope.spawn(worker) {
        Ok(_) => Ok(()),
        Err(_) => Err(PoolFault::NoWorker),
    }
}

// Calls the body on a post, whose ends are closed when it returns, and on the input.
fn attend<'a, R: Wait, I, F, T>(
    rt: &'a R,
    jobs: Outbox<'a>,
    back: AnswerReceiver,
    input: I,
    body: F,
) -> T
where
    F: FnOnce(&mut PoolPost<'_, R>, I) -> T,
    requires table { back.table ≡ jobs.table }
    requires body { CallTakes F.FnOnce body (pool_over jobs back.limit) input }
    ensures { CallGives F.FnOnce body (pool_over jobs.entry back.limit) input result }
{
    let mut post = PoolPost::new(rt, jobs, back);
    body(&mut post, input)
}
