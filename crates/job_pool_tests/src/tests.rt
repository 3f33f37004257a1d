//! Jobs over pools.
ghost use Rattle.std.specs.Prelude.{◌≡◌, ◌≤◌, vec_len};
ghost use Rattle.revision_jobs.specs.Entries.{IsOf};

mod entries;
mod gates;
mod lanes;

use basics::Refusal;
use bookmarks::View;
use entries::{GONE, STILL, push_dot, push_step, push_view, table};
use gates::{Counting, Gathering, Meeting, Waiting};
use job_pool::{NoPool, PoolFault, PoolPost, pool};
use revision_jobs::{Answer, Entries, Job, NoGate, Outcome, Place, Post, Received, Sent};
use std::alloc::Global;
use std::fmt::Debug;
use std::process::Abort;
use std::sync::Wait;
use std::sync::atomic::{AtomicBool, AtomicU64, Ordering};
use std::thread;
use std::thread::Threads;

/// More squares than any of these jobs needs.
const SQUARES: u32 = 4096;

/// How often a test tries what depends on another thread, each time letting others run.
const TURNS: u32 = 1_000_000;

/// Stops the test where what was found isn't what was wanted.
fn same<T: PartialEq + Debug, A: Debug>(rt: &impl Abort, found: &T, wanted: &T, at: &A) {
    assert!(rt; *found == *wanted, "{at:?}: {found:?}, not {wanted:?}");
}

/// Sends a job, and says whether it was taken.
fn is_taken<P: Post>(rt: &impl Abort, post: &mut P, number: u32, place: &Place) -> bool
    requires { IsOf (P.view post.old).table place.now }
    ensures { (P.view post.new).table ≡ (P.view post.old).table }
{
    assert!(rt;
        post.floor() <= u64::from(number),
        "a number below the floor"
    );
    let job = Job {
        number,
        place: place.share(),
    };
    match post.send(job) {
        Sent::Taken => true,
        Sent::Full(back) => {
            same(rt, &back.number, &number, &"full");
            false
        }
        Sent::Closed(_) => panic!(rt; "closed"),
    }
}

/// Sends the jobs of the numbers below this one, each as soon as it is taken.
fn send_below<P: Post>(rt: &impl Abort, post: &mut P, place: &Place, end: u32)
    requires { IsOf (P.view post.old).table place.now }
    ensures { (P.view post.new).table ≡ (P.view post.old).table }
{
    let mut number = 0;
    for _ in 0..TURNS {
        if number == end {
            return;
        }
        if is_taken(rt, post, number, place) {
            number += 1;
        } else {
            thread::yield_now();
        }
    }
    panic!(rt; "job {number} is not taken");
}

fn received<P: Post>(rt: &impl Abort, post: &mut P) -> Answer {
    match post.receive() {
        Received::Answer(answer) => answer,
        Received::Nothing => panic!(rt; "nothing"),
        Received::Ended => panic!(rt; "ended"),
    }
}

/// Stops the test where the answer isn't this text.
fn expect_text(rt: &impl Abort, answer: Answer, wanted: &str) {
    let number = answer.number();
    let outcome = answer.into_parts().outcome;
    match outcome {
        Outcome::Text(text) => same(rt, &text.as_slice(), &wanted.as_bytes(), &number),
        Outcome::Plane(_) => panic!(rt; "a plane"),
        Outcome::Gave(fault) => panic!(rt; "{fault:?}"),
    }
}

/// Receives so many answers of this text, and adds their numbers up.
fn receive_texts<P: Post>(rt: &impl Abort, post: &mut P, count: u32, wanted: &str) -> u32 {
    let mut sum = 0u32;
    for _ in 0..count {
        let answer = received(rt, post);
        sum = sum.wrapping_add(answer.number());
        expect_text(rt, answer, wanted);
    }
    sum
}

/// So many gates that do nothing.
fn no_gates(rt: &impl Abort, alloc: Global, count: u8) -> Vec<NoGate>
    ensures { vec_len result ≡ count }
{
    let mut gates = Vec::new(alloc);
    for _ in 0..count {
        gates.push(NoGate).expect(rt, "memory");
    }
    gates
}

/// What the body answered.
fn answered<T, I: Drop>(rt: &impl Abort, called: Result<T, NoPool<I>>) -> T {
    match called {
        Ok(answer) => answer,
        Err(NoPool { fault, input: _ }) => panic!(rt; "no pool: {fault:?}"),
    }
}

/// Stops the test where so many workers don't answer each of 40 jobs once.
fn expect_each_answer<R: Abort + Threads + Wait + Sync>(rt: &R, alloc: Global, workers: u8)
    requires { (1 ≤ workers) × (workers ≤ 8) }
{
    let entries = table(rt, alloc);
    let place = push_view(rt, alloc, &entries, View::Counts);
    let gates = no_gates(rt, alloc, workers);
    let body = |post: &mut PoolPost<'_, R>, jobs: u32| -> u32
        requires { IsOf post.old.table place }
    {
        send_below(rt, post, &place, jobs);
        receive_texts(rt, post, jobs, "empty\n")
    };
    let sum = answered(rt, pool(rt, alloc, &entries, gates, SQUARES, 40, body));
    same(rt, &sum, &780, &workers);
}

#[test]
fn answers_each_job(rt: HostRuntime) {
    expect_each_answer(&rt, rt.alloc(), 1);
    expect_each_answer(&rt, rt.alloc(), 2);
    expect_each_answer(&rt, rt.alloc(), 8);
}

// Two jobs that are out at once are worked at once: the first waits for the second to begin.
#[test]
fn two_workers_run_at_once(rt: HostRuntime) {
    let alloc = rt.alloc();
    let entries = table(&rt, alloc);
    let counts = push_view(&rt, alloc, &entries, View::Counts);
    let rle = push_view(&rt, alloc, &entries, View::Rle);
    let begun = AtomicBool::new(false);
    let met = AtomicBool::new(false);
    let one = Meeting {
        begun: &begun,
        met: &met,
    };
    let other = Meeting {
        begun: &begun,
        met: &met,
    };
    let gates = pair(&rt, alloc, one, other);
    let body = |post: &mut PoolPost<'_, HostRuntime>, _input: ()| -> u32
        requires { IsOf post.old.table counts × IsOf post.old.table rle }
    { work_two(&rt, post, &counts, &rle) };
    let sum = answered(&rt, pool(&rt, alloc, &entries, gates, SQUARES, (), body));
    same(&rt, &sum, &1, &"sum");
    assert!(rt; met.load(Ordering::SeqCst), "job 0 waited in vain");
}

/// So many gates, each of which waits for all others.
fn gathering<'a>(
    rt: &impl Abort,
    alloc: Global,
    count: u8,
    begun: &'a AtomicU64,
    met: &'a AtomicU64,
) -> Vec<Gathering<'a>>
    ensures { vec_len result ≡ count }
{
    let mut gates = Vec::new(alloc);
    for _ in 0..count {
        let gate = Gathering {
            wanted: u64::from(count),
            begun,
            met,
        };
        gates.push(gate).expect(rt, "memory");
    }
    gates
}

/// Stops the test where so many jobs aren't worked at once by so many workers, each of which waits
/// for all others to begin.
fn expect_all_at_once<R: Abort + Threads + Wait + Sync>(rt: &R, alloc: Global, workers: u8)
    requires { (1 ≤ workers) × (workers ≤ 8) }
{
    let entries = table(rt, alloc);
    let place = push_view(rt, alloc, &entries, View::Counts);
    let begun = AtomicU64::new(0);
    let met = AtomicU64::new(0);
    let gates = gathering(rt, alloc, workers, &begun, &met);
    let body = |post: &mut PoolPost<'_, R>, jobs: u32| -> u32
        requires { IsOf post.old.table place }
    {
        send_below(rt, post, &place, jobs);
        receive_texts(rt, post, jobs, "empty\n")
    };
    let jobs = u32::from(workers);
    answered(rt, pool(rt, alloc, &entries, gates, SQUARES, jobs, body));
    let together = met.load(Ordering::SeqCst);
    same(rt, &together, &u64::from(workers), &workers);
}

#[test]
fn as_many_workers_come_as_there_are_gates(rt: HostRuntime) {
    expect_all_at_once(&rt, rt.alloc(), 2);
    expect_all_at_once(&rt, rt.alloc(), 3);
    expect_all_at_once(&rt, rt.alloc(), 8);
}

fn pair<G: Drop>(rt: &impl Abort, alloc: Global, one: G, other: G) -> Vec<G>
    ensures { vec_len result ≡ 2 }
{
    let mut both = Vec::new(alloc);
    both.push(one).expect(rt, "memory");
    both.push(other).expect(rt, "memory");
    both
}

/// Sends a job of each place and receives both answers, and adds their numbers up.
fn work_two<P: Post>(rt: &impl Abort, post: &mut P, one: &Place, other: &Place) -> u32
    requires { IsOf (P.view post.old).table one.now × IsOf (P.view post.old).table other.now }
{
    assert!(rt; is_taken(rt, post, 0, one), "one");
    assert!(rt; is_taken(rt, post, 1, other), "the other");
    let first = received(rt, post).number();
    first.wrapping_add(received(rt, post).number())
}

/// A gate, alone.
fn single<G: Drop>(rt: &impl Abort, alloc: Global, gate: G) -> Vec<G>
    ensures { vec_len result ≡ 1 }
{
    let mut gates = Vec::new(alloc);
    gates.push(gate).expect(rt, "memory");
    gates
}

// 32 answers wait, one is in the worker's hands and 16 jobs are in the queue. When the body has
// returned, what is left is worked and dropped.
#[test]
fn ends_with_answers_that_nobody_waits_for(rt: HostRuntime) {
    let alloc = rt.alloc();
    let entries = table(&rt, alloc);
    let place = push_view(&rt, alloc, &entries, View::Counts);
    let ended = AtomicU64::new(0);
    let gates = single(&rt, alloc, Counting { ended: &ended });
    let body = |post: &mut PoolPost<'_, HostRuntime>, _input: ()| -> u64
        requires { IsOf post.old.table place }
    {
        send_below(&rt, post, &place, 49);
        post.floor()
    };
    let floor = answered(&rt, pool(&rt, alloc, &entries, gates, SQUARES, (), body));
    same(&rt, &floor, &49, &"floor");
    same(&rt, &ended.load(Ordering::SeqCst), &49, &"worked");
}

/// Sends a job, raises its entry's flag and then lets the worker go on. Answers why the job gave up.
fn stop_one<P: Post>(
    rt: &impl Abort,
    entries: &Entries,
    post: &mut P,
    place: &Place,
    go_on: &AtomicBool,
) -> Option<u8>
    requires { ((P.view post.old).table ≡ entries.now) × IsOf entries.now place.now }
{
    assert!(rt; is_taken(rt, post, 0, place), "taken");
    entries.raise(place);
    go_on.store(true, Ordering::SeqCst);
    let outcome = received(rt, post).into_parts().outcome;
    match outcome {
        Outcome::Gave(fault) => Some(fault.reason().number),
        Outcome::Plane(_) => None,
        Outcome::Text(_) => None,
    }
}

#[test]
fn a_flag_stops_a_job_that_is_out(rt: HostRuntime) {
    let alloc = rt.alloc();
    let entries = table(&rt, alloc);
    let place = push_step(&rt, alloc, &entries, 5);
    let flag = AtomicBool::new(false);
    let gates = single(&rt, alloc, Waiting { flag: &flag });
    let body = |post: &mut PoolPost<'_, HostRuntime>, _input: ()| -> Option<u8>
        requires { (post.old.table ≡ entries) × IsOf entries place }
    { stop_one(&rt, &entries, post, &place, &flag) };
    let number = answered(&rt, pool(&rt, alloc, &entries, gates, SQUARES, (), body));
    same(&rt, &number, &Some(72), &"stopped");
}

/// Stops the test where the answer isn't a pattern of one cell, or of none for an odd number.
fn expect_dot(rt: &impl Abort, answer: Answer) {
    let number = answer.number();
    let wanted = if number % 2 == 0 { 1 } else { 0 };
    let outcome = answer.into_parts().outcome;
    match outcome {
        Outcome::Plane(plane) => same(rt, &plane.population(), &wanted, &number),
        Outcome::Text(_) => panic!(rt; "a text"),
        Outcome::Gave(fault) => panic!(rt; "{fault:?}"),
    }
}

/// Sends jobs of the two places by turns, and receives their answers.
fn work_by_turns<P: Post>(rt: &impl Abort, post: &mut P, still: &Place, gone: &Place)
    requires { IsOf (P.view post.old).table still.now × IsOf (P.view post.old).table gone.now }
{
    assert!(rt; is_taken(rt, post, 0, still), "0");
    assert!(rt; is_taken(rt, post, 1, gone), "1");
    assert!(rt; is_taken(rt, post, 2, still), "2");
    assert!(rt; is_taken(rt, post, 3, gone), "3");
    expect_dot(rt, received(rt, post));
    expect_dot(rt, received(rt, post));
    expect_dot(rt, received(rt, post));
    expect_dot(rt, received(rt, post));
}

// What a worker keeps of one rule isn't used for another.
#[test]
fn a_worker_goes_on_under_another_rule(rt: HostRuntime) {
    let alloc = rt.alloc();
    let entries = table(&rt, alloc);
    let still = push_dot(&rt, alloc, &entries, STILL);
    let gone = push_dot(&rt, alloc, &entries, GONE);
    let gates = no_gates(&rt, alloc, 1);
    let body = |post: &mut PoolPost<'_, HostRuntime>, _input: ()| -> ()
        requires { IsOf post.old.table still × IsOf post.old.table gone }
    { work_by_turns(&rt, post, &still, &gone) };
    answered(&rt, pool(&rt, alloc, &entries, gates, SQUARES, (), body));
}

/// Stops the test where a fault has another number or name, or a place.
fn expect_reason(rt: &impl Abort, fault: PoolFault, number: u8, name: &'static str) {
    let reason = fault.reason();
    same(rt, &reason.number, &number, &name);
    same(rt, &reason.name, &name, &number);
    same(rt, &reason.place, &None, &name);
}

#[test]
fn faults_have_their_numbers(rt: HostRuntime) {
    expect_reason(&rt, PoolFault::NoMemory, 70, "NoMemory");
    expect_reason(&rt, PoolFault::NoWorker, 74, "NoWorker");
}
