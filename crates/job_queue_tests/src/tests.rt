//! Offers and takes of jobs that view the empty pattern.
ghost use Rattle.std.specs.Prelude.{◌≡◌, IsTrue};
ghost use Rattle.worlds.specs.Range.{AllBelow};
ghost use Rattle.revision_jobs.specs.Entries.{IsOf};
ghost use Rattle.job_queue.specs.Ends.{new_sender, with_sent};

use basics::Listing;
use bookmarks::View;
use job_queue::{JobSender, JobTaker, job_queue};
use plane_core::Plane;
use revision_jobs::{Entries, Entry, Job, Place, Rendering, Sent};
use std::alloc::Global;
use std::fmt::Debug;
use std::process::Abort;
use std::sync::{Arc, Wait};
use std::thread;

/// Stops the test where what was found isn't what was wanted.
fn same<T: PartialEq + Debug, A: Debug>(rt: &impl Abort, found: &T, wanted: &T, at: &A) {
    assert!(rt; *found == *wanted, "{at:?}: {found:?}, not {wanted:?}");
}

fn table(rt: &impl Abort, alloc: Global) -> Entries {
    Entries::new(alloc).expect(rt, "memory")
}

fn is_below(plane: &Plane, states: u16) -> bool
    ensures { IsTrue result → AllBelow states plane.now }
{
    u16::from(plane.greatest()) < states
}

/// Stores the counts of the empty pattern.
fn push_counts<R: Abort + Wait>(rt: &R, alloc: Global, entries: &Entries) -> Place
    ensures { IsOf entries.now result }
{
    let plane = Plane::empty(alloc);
    assert!(rt; is_below(&plane, 2), "a state is too high");
    let rendering = Rendering {
        view: View::Counts,
        from: Arc::new(alloc, plane).expect(rt, "memory"),
        cells: Listing::from_vec(Vec::new(alloc)),
        name: Listing::from_vec(Vec::new(alloc)),
        states: 2,
        generation: 0,
    };
    entries
        .push(rt, Entry::View(rendering))
        .expect(rt, "memory")
}

/// What came of an offer.
#[derive(Clone, Copy, Debug, PartialEq)]
enum Offered {
    Taken,
    /// With the number of the job that came back.
    Full(u32),
    Closed(u32),
}

/// Offers a job of this number.
fn offer_job<R: Abort + Wait>(rt: &R, sender: &mut JobSender, number: u32, place: &Place) -> Offered
    requires { IsOf sender.old.table place.now }
    ensures { sender.new ≡ with_sent sender.new.sent sender.old }
{
    assert!(rt;
        sender.floor() <= u64::from(number),
        "a number below the floor"
    );
    let job = Job {
        number,
        place: place.share(),
    };
    match sender.offer(rt, job) {
        Sent::Taken => Offered::Taken,
        Sent::Full(back) => Offered::Full(back.number),
        Sent::Closed(back) => Offered::Closed(back.number),
    }
}

/// Stops the test where an offer of the job of this number doesn't end so.
fn expect_offered<R: Abort + Wait>(
    rt: &R,
    sender: &mut JobSender,
    number: u32,
    place: &Place,
    wanted: Offered,
)
    requires { IsOf sender.old.table place.now }
    ensures { sender.new ≡ with_sent sender.new.sent sender.old }
{
    same(rt, &offer_job(rt, sender, number, place), &wanted, &number);
}

/// Sends the jobs of the numbers below this one.
fn send_below<R: Abort + Wait>(rt: &R, sender: &mut JobSender, place: &Place, end: u32)
    requires { IsOf sender.old.table place.now }
    ensures { sender.new ≡ with_sent sender.new.sent sender.old }
{
    for number in 0..end {
        expect_offered(rt, sender, number, place, Offered::Taken);
    }
}

/// The number of the next job.
fn taken<R: Wait>(rt: &R, taker: &mut JobTaker) -> Option<u32>
    ensures { taker.new.queue ≡ taker.old.queue }
{
    let job = taker.take(rt)?;
    Some(job.number)
}

/// A queue of the table and its one taker.
fn queue_of_one(rt: &impl Abort, alloc: Global, entries: &Entries) -> (JobSender, JobTaker)
    ensures { result.0.table ≡ entries.now }
{
    let (sender, mut takers) = job_queue(alloc, entries, 1).expect(rt, "memory");
    (sender, takers.pop().expect(rt, "a taker"))
}

/// A queue of the table and its two takers.
fn queue_of_two(
    rt: &impl Abort,
    alloc: Global,
    entries: &Entries,
) -> (JobSender, JobTaker, JobTaker)
    ensures sender { result.0 ≡ new_sender result.0.queue 2 entries.now }
    ensures one { result.1.queue ≡ result.0.queue }
    ensures other { result.2.queue ≡ result.0.queue }
{
    let (sender, mut takers) = job_queue(alloc, entries, 2).expect(rt, "memory");
    let one = takers.pop().expect(rt, "a taker");
    let other = takers.pop().expect(rt, "a taker");
    (sender, one, other)
}

#[test]
fn the_seventeenth_is_full(rt: HostRuntime) {
    let alloc = rt.alloc();
    let entries = table(&rt, alloc);
    let place = push_counts(&rt, alloc, &entries);
    let (mut sender, mut taker) = queue_of_one(&rt, alloc, &entries);
    send_below(&rt, &mut sender, &place, 16);
    expect_offered(&rt, &mut sender, 16, &place, Offered::Full(16));
    same(&rt, &sender.floor(), &16, &"floor");
    same(&rt, &taken(&rt, &mut taker), &Some(0), &"the first");
    expect_offered(&rt, &mut sender, 16, &place, Offered::Taken);
    same(&rt, &taken(&rt, &mut taker), &Some(1), &"the second");
}

#[test]
fn is_closed_without_takers(rt: HostRuntime) {
    let alloc = rt.alloc();
    let entries = table(&rt, alloc);
    let place = push_counts(&rt, alloc, &entries);
    let (mut sender, taker) = queue_of_one(&rt, alloc, &entries);
    expect_offered(&rt, &mut sender, 3, &place, Offered::Taken);
    drop(taker);
    expect_offered(&rt, &mut sender, 5, &place, Offered::Closed(5));
    same(&rt, &sender.floor(), &4, &"floor");
}

#[test]
fn is_none_without_a_sender(rt: HostRuntime) {
    let alloc = rt.alloc();
    let entries = table(&rt, alloc);
    let place = push_counts(&rt, alloc, &entries);
    let (mut sender, mut taker) = queue_of_one(&rt, alloc, &entries);
    expect_offered(&rt, &mut sender, 7, &place, Offered::Taken);
    drop(sender);
    same(&rt, &taken(&rt, &mut taker), &Some(7), &"what was sent");
    same(&rt, &taken(&rt, &mut taker), &None, &"no more");
}

#[test]
fn takers_share_what_was_sent(rt: HostRuntime) {
    let alloc = rt.alloc();
    let entries = table(&rt, alloc);
    let place = push_counts(&rt, alloc, &entries);
    let (mut sender, mut takers) = job_queue(alloc, &entries, 8).expect(&rt, "memory");
    same(&rt, &takers.len(), &8, &"takers");
    send_below(&rt, &mut sender, &place, 3);
    let mut one = takers.pop().expect(&rt, "a taker");
    let mut other = takers.pop().expect(&rt, "a taker");
    same(&rt, &taken(&rt, &mut one), &Some(0), &"one");
    same(&rt, &taken(&rt, &mut other), &Some(1), &"the other");
    same(&rt, &taken(&rt, &mut one), &Some(2), &"one again");
}

// What two takers took adds up with what waits to what was sent: the sender may settle once both
// came back.
#[test]
fn a_sender_settles_when_all_takers_came_back(rt: HostRuntime) {
    let alloc = rt.alloc();
    let entries = table(&rt, alloc);
    let place = push_counts(&rt, alloc, &entries);
    let (mut sender, mut one, mut other) = queue_of_two(&rt, alloc, &entries);
    send_below(&rt, &mut sender, &place, 3);
    same(&rt, &taken(&rt, &mut one), &Some(0), &"one");
    same(&rt, &taken(&rt, &mut other), &Some(1), &"the other");
    sender.take_back(one);
    sender.take_back(other);
    sender.settle();
    expect_offered(&rt, &mut sender, 3, &place, Offered::Closed(3));
}

/// How often the sender lets others run before it sends.
const TURNS: u32 = 100_000;

/// Sends job 7, but lets others run before.
fn send_later<R: Abort + Wait>(rt: &R, sender: JobSender, place: &Place)
    requires { IsOf sender.table place.now }
{
    let mut sender = sender;
    for _ in 0..TURNS {
        thread::yield_now();
    }
    expect_offered(rt, &mut sender, 7, place, Offered::Taken);
}

// While the queue is open and nothing waits in it, a take waits for a job.
#[test]
fn a_take_waits_while_the_queue_is_open(rt: HostRuntime) {
    let alloc = rt.alloc();
    let entries = table(&rt, alloc);
    let place = push_counts(&rt, alloc, &entries);
    let (sender, mut taker) = queue_of_one(&rt, alloc, &entries);
    let later = move ||
        requires { IsOf sender.table place }
    { send_later(&rt, sender, &place) };
    let (number, _sent) = thread::join(&rt, || taken(&rt, &mut taker), later);
    same(&rt, &number, &Some(7), &"what is sent later");
}
