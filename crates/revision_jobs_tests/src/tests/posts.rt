ghost use Rattle.std.specs.Prelude.{◌≡◌};
ghost use Rattle.revision_jobs.specs.Entries.{IsOf};

use super::{push_from_one, same, table};
use basics::Refusal;
use revision_jobs::{Answer, InlinePost, Job, Outcome, Place, Post, Received, Sent};
use std::process::Abort;

const SQUARES: u32 = 4096;

/// Sends a job, and answers the number of the job that came back, if one did.
fn sent<P: Post>(rt: &impl Abort, post: &mut P, number: u32, place: Place) -> Option<u32>
    requires { IsOf (P.view post.old).table place }
    ensures { (P.view post.new).table ≡ (P.view post.old).table }
{
    assert!(rt;
        post.floor() <= u64::from(number),
        "a number below the floor"
    );
    match post.send(Job { number, place }) {
        Sent::Taken => None,
        Sent::Full(job) => Some(job.number),
        Sent::Closed(_) => panic!(rt; "closed"),
    }
}

/// The number of the job that is answered by a plane, if an answer comes.
fn received<P: Post>(rt: &impl Abort, post: &mut P) -> Option<u32>
    ensures { (P.view post.new).table ≡ (P.view post.old).table }
{
    match post.receive() {
        Received::Answer(answer) => Some(number_of(rt, answer)),
        Received::Nothing => None,
        Received::Ended => panic!(rt; "ended"),
    }
}

fn number_of(rt: &impl Abort, answer: Answer) -> u32 {
    let number = answer.number();
    let outcome = answer.into_parts().outcome;
    match outcome {
        Outcome::Plane(_) => number,
        Outcome::Text(_) => panic!(rt; "a text"),
        Outcome::Gave(fault) => panic!(rt; "{fault:?}"),
    }
}

#[test]
fn holds_one_job(rt: HostRuntime) {
    let alloc = rt.alloc();
    let entries = table(&rt, alloc);
    let place = push_from_one(&rt, alloc, &entries, 8);
    let mut post = InlinePost::new(alloc, &entries, SQUARES);
    same(&rt, &post.floor(), &0, &"before any");
    same(&rt, &received(&rt, &mut post), &None, &"nothing");
    same(
        &rt,
        &sent(&rt, &mut post, 5, place.share()),
        &None,
        &"taken",
    );
    same(&rt, &post.floor(), &6, &"after 5");
    same(
        &rt,
        &sent(&rt, &mut post, 9, place.share()),
        &Some(9),
        &"full",
    );
    same(&rt, &post.floor(), &6, &"still");
    same(&rt, &received(&rt, &mut post), &Some(5), &"answered");
    same(&rt, &received(&rt, &mut post), &None, &"nothing more");
    same(&rt, &sent(&rt, &mut post, 6, place), &None, &"taken next");
    same(&rt, &received(&rt, &mut post), &Some(6), &"answered next");
}

/// Stops the test where the job that the post holds isn't given up by the refusal of this number.
fn expect_gave<P: Post>(rt: &impl Abort, post: &mut P, number: u8)
    ensures { (P.view post.new).table ≡ (P.view post.old).table }
{
    let outcome = match post.receive() {
        Received::Answer(answer) => answer.into_parts().outcome,
        Received::Nothing => panic!(rt; "nothing"),
        Received::Ended => panic!(rt; "ended"),
    };
    match outcome {
        Outcome::Gave(fault) => same(rt, &fault.reason().number, &number, &"fault"),
        Outcome::Plane(_) => panic!(rt; "a plane"),
        Outcome::Text(_) => panic!(rt; "a text"),
    }
}

#[test]
fn stops_a_job_whose_flag_is_raised(rt: HostRuntime) {
    let alloc = rt.alloc();
    let entries = table(&rt, alloc);
    let place = push_from_one(&rt, alloc, &entries, 8);
    let other = push_from_one(&rt, alloc, &entries, 8);
    let mut post = InlinePost::new(alloc, &entries, SQUARES);
    same(&rt, &sent(&rt, &mut post, 0, place.share()), &None, &"sent");
    entries.raise(&place);
    expect_gave(&rt, &mut post, 72);
    same(&rt, &sent(&rt, &mut post, 1, other), &None, &"the other");
    same(&rt, &received(&rt, &mut post), &Some(1), &"the other");
}

#[test]
fn keeps_to_its_squares(rt: HostRuntime) {
    let alloc = rt.alloc();
    let entries = table(&rt, alloc);
    let place = push_from_one(&rt, alloc, &entries, 1 << 60);
    let mut few = InlinePost::new(alloc, &entries, 64);
    same(&rt, &sent(&rt, &mut few, 0, place.share()), &None, &"few");
    expect_gave(&rt, &mut few, 71);
    let mut enough = InlinePost::new(alloc, &entries, SQUARES);
    same(&rt, &sent(&rt, &mut enough, 0, place), &None, &"enough");
    same(&rt, &received(&rt, &mut enough), &Some(0), &"enough");
}
