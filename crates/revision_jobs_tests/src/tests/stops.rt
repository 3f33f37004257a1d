//! A job that is told to stop at each of its polls in turn.
ghost use Rattle.std.specs.Prelude.{◌≡◌};
ghost use Rattle.revision_jobs.specs.Entries.{IsOf};

use super::{plane_of, push_from_one, same, table};
use plane_core::Stop;
use revision_jobs::{Entries, Job, NoGate, Outcome, Place, work};
use std::alloc::Global;
use std::process::Abort;
use step_engine::EvolveFault;

/// More squares than the job needs.
const SQUARES: u32 = 4096;

/// Says yes at the poll that makes what is left 0.
#[derive(Clone, Copy)]
struct Countdown {
    left: u64,
}

impl Stop for Countdown {
    ghost use Rattle.std.specs.Prelude.{◌==◌, if◌then◌else◌};

    ghost yes_count = { λ stop. if stop.left == 0 then 1 else 0 };

    fn poll(&mut self) -> bool {
        match self.left {
            0 => false,
            1 => {
                self.left = 0;
                true
            }
            left => {
                self.left = left - 1;
                false
            }
        }
    }
}

/// What comes of the step over 8 generations where this poll says yes, if the step comes so far.
fn expect_outcome(rt: &impl Abort, alloc: Global, outcome: &Outcome, was_stopped: bool) {
    match outcome {
        Outcome::Plane(plane) => {
            same(rt, &was_stopped, &false, &"a plane");
            let wanted = plane_of(rt, alloc, &[(-8, 0, 1), (8, 0, 1)]);
            assert!(rt; plane.equals(&wanted), "the cells");
        }
        Outcome::Gave(fault) => {
            same(rt, &was_stopped, &true, &"stopped");
            same(rt, fault, &EvolveFault::Stopped, &"fault");
        }
        Outcome::Text(_) => panic!(rt; "a text"),
    }
}

/// Whether this poll was made, and said yes.
fn is_stopped_at(rt: &impl Abort, alloc: Global, entries: &Entries, place: Place, poll: u64) -> bool
    requires { IsOf entries.now place }
{
    let mut stop = Countdown { left: poll };
    let job = Job { number: 0, place };
    let answer = work(alloc, job, entries, &mut NoGate, &mut stop, SQUARES);
    let was_stopped = stop.left == 0;
    let outcome = answer.into_parts().outcome;
    expect_outcome(rt, alloc, &outcome, was_stopped);
    was_stopped
}

#[test]
fn stops_at_each_poll(rt: HostRuntime) {
    let alloc = rt.alloc();
    let entries = table(&rt, alloc);
    let place = push_from_one(&rt, alloc, &entries, 8);
    let mut stopped = 0;
    for poll in 1..1000u64 {
        if !is_stopped_at(&rt, alloc, &entries, place.share(), poll) {
            break;
        }
        stopped = poll;
    }
    assert!(&rt; (1..999).contains(&stopped), "{stopped} polls");
}
