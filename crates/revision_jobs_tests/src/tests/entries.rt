ghost use Rattle.revision_jobs.specs.Entries.{IsOf};

use super::{push_from_one, same, table};
use plane_core::{NoStop, Stop};
use revision_jobs::{Entries, Entry, Job, NoGate, Place, work};
use std::process::Abort;

/// How many generations the step at a place takes.
fn gens_at(rt: &impl Abort, entries: &Entries, place: &Place) -> u64
    requires { IsOf entries.now place.now }
{
    match entries.at(place) {
        Entry::Step(step) => step.gens,
        Entry::View(_) => panic!(rt; "a view"),
    }
}

#[test]
fn places_show_their_entries(rt: HostRuntime) {
    let alloc = rt.alloc();
    let entries = table(&rt, alloc);
    let first = push_from_one(&rt, alloc, &entries, 3);
    let second = push_from_one(&rt, alloc, &entries, 4);
    let third = push_from_one(&rt, alloc, &entries, 3);
    let shared = first.share();
    same(&rt, &gens_at(&rt, &entries, &first), &3, &"first");
    same(&rt, &gens_at(&rt, &entries, &second), &4, &"second");
    same(&rt, &gens_at(&rt, &entries, &shared), &3, &"shared");
    assert!(rt; entries.same(&first, &first));
    assert!(rt; entries.same(&first, &shared));
    assert!(rt; !entries.same(&first, &second));
    assert!(rt; !entries.same(&first, &third));
}

#[test]
fn flags_are_of_one_entry_each(rt: HostRuntime) {
    let alloc = rt.alloc();
    let entries = table(&rt, alloc);
    let first = push_from_one(&rt, alloc, &entries, 3);
    let second = push_from_one(&rt, alloc, &entries, 3);
    let mut early = entries.stop(&first);
    assert!(rt; !early.poll());
    entries.raise(&first.share());
    assert!(rt; early.poll());
    assert!(rt; entries.stop(&first).poll());
    assert!(rt; !entries.stop(&second).poll());
}

// What threads share, and what they hand on: these compile for no other types.
fn may_be_shared<T: Sync>(_value: &T) -> bool {
    true
}

fn may_be_sent<T: Send>(_value: &T) -> bool {
    true
}

#[test]
fn threads_share_entries_and_hand_on_answers(rt: HostRuntime) {
    let alloc = rt.alloc();
    let entries = table(&rt, alloc);
    let place = push_from_one(&rt, alloc, &entries, 0);
    let job = Job { number: 0, place };
    assert!(rt; may_be_shared(&entries) && may_be_sent(&job));
    let answer = work(alloc, job, &entries, &mut NoGate, &mut NoStop, 64);
    assert!(rt; may_be_sent(&answer));
}
