//! Desks over posts that lose, repeat, delay and reorder answers, and jobs that are stopped.
ghost use Rattle.std.specs.Prelude.{◌≡◌, ◌≤◌};
ghost use Rattle.dependency_book.specs.BookState.{given_of};

use super::changes::{Change, edit_of};
use super::same;
use super::unruly::{Deed, Unruly};
use desk_core::{
    Collected, Desk, Entries, EvolveFault, InlinePost, NoGate, Post, Received, Settling, Shown,
    settle, work,
};
use std::alloc::Global;
use std::process::Abort;
use std::sync::Wait;
use worlds::Stop;

// How many squares a step may keep.
const SQUARES: u32 = 4096;

// More turns than these desks take where nothing is lost.
const TURNS: u32 = 100;

/// A desk, and an unruly post of its table.
#[derive(Drop)]
struct Scene<'e> {
    alloc: Global,
    entries: &'e Entries,
    desk: Desk<'e>,
    post: Unruly<'e>,
    ghost own: { desk.table ≡ entries.now },
    ghost posted: { post.table ≡ entries.now },
    ghost floor: { post.floor ≤ given_of desk },
}

impl<'e> Scene<'e> {
    /// A desk of the rule X, with the cell (0, 0) and counts at 8.
    fn open(rt: &impl Abort, alloc: Global, entries: &'e Entries, deeds: &'static [Deed]) -> Self {
        let mut scene = Scene {
            alloc,
            entries,
            desk: Desk::open(alloc, entries, 1).expect(rt, "memory"),
            post: Unruly::new(alloc, entries, SQUARES, deeds),
        };
        scene.edit(rt, Change::Rule);
        scene.edit(rt, Change::Set(&[(0, 0, 1)]));
        scene.edit(rt, Change::Mark(8));
        scene
    }

    fn edit(&mut self, rt: &impl Abort, change: Change) {
        let edit = edit_of(rt, self.alloc, change);
        let _edited = self.desk.edit(&edit).expect(rt, "an accepted edit");
    }

    /// Settles over the unruly post, which ends so, with so many jobs given.
    fn settles<R: Abort + Wait>(&mut self, rt: &R, turns: u32, wanted: Settling, given: u32) {
        let settling = settle(rt, &mut self.desk, &mut self.post, turns);
        same(rt, &settling, &wanted, &turns);
        same(rt, &self.desk.given(), &given, &turns);
    }

    /// Settles over a post that does what it is to do, with so many jobs given.
    fn settles_well<R: Abort + Wait>(&mut self, rt: &R, given: u32) {
        let mut post = InlinePost::new(self.alloc, self.entries, SQUARES);
        let settling = settle(rt, &mut self.desk, &mut post, TURNS);
        same(rt, &settling, &Settling::Settled, &"well");
        same(rt, &self.desk.given(), &given, &"well");
        let floor = self.post.floor();
        assert!(rt; floor <= u64::from(self.desk.given()), "{floor}");
    }

    /// Gives up the job of the least number, which is this one.
    fn cancels(&mut self, rt: &impl Abort, number: u32) {
        same(rt, &self.desk.first_out(), &Some(number), &"out");
        same(rt, &self.desk.cancel(number), &true, &number);
    }

    fn shows(&self, rt: &impl Abort, id: u64, text: &'static str) {
        let wanted = Shown::Current(text.as_bytes());
        same(rt, &self.desk.shown(id), &wanted, &id);
    }

    /// Sends the next job to the post.
    fn sends<R: Abort + Wait>(&mut self, rt: &R) {
        let issued = self.desk.issue(rt).expect(rt, "memory");
        let job = issued.expect(rt, "a job");
        let _sent = self.post.send(job);
    }

    /// Collects the next answer of the post, of which this comes.
    fn collects(&mut self, rt: &impl Abort, wanted: Collected) {
        let Received::Answer(answer) = self.post.receive() else {
            panic!(rt; "no answer");
        };
        same(rt, &self.desk.collect(answer), &wanted, &"collected");
    }
}

/// What a post does, how the settling over it ends, and how many jobs were given then.
struct Row {
    deeds: &'static [Deed],
    ended: Settling,
    given: u32,
}

// The first job is the text at 0, which needs no step, the second the step to 8, and the third the
// text at 8.
const SETTLED: &[Row] = &[
    Row {
        deeds: &[],
        ended: Settling::Settled,
        given: 3,
    },
    Row {
        deeds: &[
            Deed::Again,
            Deed::First,
            Deed::Again,
            Deed::First,
            Deed::Again,
            Deed::First,
            Deed::Again,
        ],
        ended: Settling::Settled,
        given: 3,
    },
    Row {
        deeds: &[Deed::Second, Deed::Second, Deed::Second],
        ended: Settling::Settled,
        given: 3,
    },
    Row {
        deeds: &[
            Deed::Waits,
            Deed::Second,
            Deed::Waits,
            Deed::Again,
            Deed::Waits,
            Deed::First,
        ],
        ended: Settling::Settled,
        given: 3,
    },
];

fn opened<'e>(
    rt: &impl Abort,
    alloc: Global,
    entries: &'e Entries,
    deeds: &'static [Deed],
) -> Scene<'e> {
    let mut scene = Scene::open(rt, alloc, entries, deeds);
    scene.edit(rt, Change::Mark(0));
    scene
}

fn settles<R: Abort + Wait>(rt: &R, alloc: Global, row: &Row) {
    let entries = Entries::new(alloc).expect(rt, "memory");
    let mut scene = opened(rt, alloc, &entries, row.deeds);
    scene.settles(rt, TURNS, row.ended, row.given);
    scene.shows(rt, 1, "1 2\n");
    scene.shows(rt, 2, "1 1\n");
}

#[test]
fn answers_come_twice_and_late_and_in_another_order(rt: HostRuntime) {
    let alloc = rt.alloc();
    for row in SETTLED {
        settles(&rt, alloc, row);
    }
}

// The first job is the step to 8 in branch 0. The others are answered before it, and are those of
// branch 1: the step of no generation with which it begins, the one to 3, and the text there.
#[test]
fn steps_of_two_branches_are_out_at_once(rt: HostRuntime) {
    let deeds = &[Deed::Second, Deed::Second, Deed::Second];
    let entries = Entries::new(rt.alloc()).expect(&rt, "memory");
    let mut scene = Scene::open(&rt, rt.alloc(), &entries, deeds);
    scene.edit(&rt, Change::Branch(0));
    let mark = Change::MarkIn {
        branch: 1,
        generation: 3,
    };
    scene.edit(&rt, mark);
    let left = Settling::Unsettled {
        pending: 1,
        cause: None,
    };
    scene.settles(&rt, 7, left, 4);
    same(&rt, &scene.desk.first_out(), &Some(0), &"out");
    scene.shows(&rt, 2, "1 4\n");
    scene.settles(&rt, TURNS, Settling::Settled, 5);
    scene.shows(&rt, 1, "1 2\n");
}

/// What a post does, the job whose answer it loses, and how many bookmarks are pending and how many
/// jobs were given where the settling ends.
struct Loss {
    deeds: &'static [Deed],
    lost: u32,
    pending: u32,
    given: u32,
}

const LOST: &[Loss] = &[
    Loss {
        deeds: &[Deed::Loses],
        lost: 0,
        pending: 1,
        given: 3,
    },
    // The step is lost, so that there is no text of it.
    Loss {
        deeds: &[Deed::First, Deed::Loses, Deed::Again],
        lost: 1,
        pending: 1,
        given: 2,
    },
    Loss {
        deeds: &[Deed::Second, Deed::Waits, Deed::Second, Deed::Loses],
        lost: 0,
        pending: 1,
        given: 3,
    },
];

fn loses<R: Abort + Wait>(rt: &R, alloc: Global, loss: &Loss) {
    let entries = Entries::new(alloc).expect(rt, "memory");
    let mut scene = opened(rt, alloc, &entries, loss.deeds);
    let left = Settling::Unsettled {
        pending: loss.pending,
        cause: None,
    };
    scene.settles(rt, TURNS, left, loss.given);
    scene.cancels(rt, loss.lost);
    scene.settles(rt, TURNS, Settling::Settled, 4);
    scene.shows(rt, 1, "1 2\n");
    scene.shows(rt, 2, "1 1\n");
}

#[test]
fn what_is_lost_is_issued_anew(rt: HostRuntime) {
    let alloc = rt.alloc();
    for loss in LOST {
        loses(&rt, alloc, loss);
    }
}

// Nine receives behind the one send, none of which gives an answer.
const LATE: &[Deed] = &[Deed::Waits; 9];

#[test]
fn late_answer_of_a_cancelled_job_is_stale(rt: HostRuntime) {
    let entries = Entries::new(rt.alloc()).expect(&rt, "memory");
    let mut scene = Scene::open(&rt, rt.alloc(), &entries, LATE);
    let left = Settling::Unsettled {
        pending: 1,
        cause: None,
    };
    scene.settles(&rt, 10, left, 1);
    scene.cancels(&rt, 0);
    scene.settles_well(&rt, 3);
    scene.shows(&rt, 1, "1 2\n");
    scene.collects(
        &rt,
        Collected::Stale {
            number: 0,
            revision: 3,
        },
    );
    scene.shows(&rt, 1, "1 2\n");
}

#[test]
fn each_second_answer_is_stale(rt: HostRuntime) {
    let deeds = &[Deed::First, Deed::Again, Deed::First, Deed::Again];
    let entries = Entries::new(rt.alloc()).expect(&rt, "memory");
    let mut scene = Scene::open(&rt, rt.alloc(), &entries, deeds);
    let stale = |number| Collected::Stale {
        number,
        revision: 3,
    };
    scene.sends(&rt);
    scene.collects(&rt, Collected::Accepted);
    scene.collects(&rt, stale(0));
    same(&rt, &scene.desk.pending(), &1, &"pending");
    scene.sends(&rt);
    scene.collects(&rt, Collected::Accepted);
    scene.collects(&rt, stale(1));
    scene.shows(&rt, 1, "1 2\n");
    same(&rt, &scene.desk.given(), &2, &"given");
}

/// Says yes at the poll that makes what is left 0.
#[derive(Clone, Copy)]
struct Countdown {
    left: u64,
}

impl Stop for Countdown {
    ghost use Rattle.std.specs.Prelude.{◌==◌, if◌then◌else◌};

    ghost yes_count = { λ stop. if stop.left == 0 then 1 else 0 };

    fn poll(&mut self) -> bool {
        match self.left {
            0 => false,
            1 => {
                self.left = 0;
                true
            }
            left => {
                self.left = left - 1;
                false
            }
        }
    }
}

// What comes of the next job where it is worked under this stop, if the stop said yes.
fn stopped<R: Abort + Wait>(rt: &R, scene: &mut Scene, poll: u64) -> Collected {
    let issued = scene.desk.issue(rt).expect(rt, "memory");
    let job = issued.expect(rt, "a job");
    let mut stop = Countdown { left: poll };
    let answer = work(
        scene.alloc,
        job,
        scene.entries,
        &mut NoGate,
        &mut stop,
        SQUARES,
    );
    scene.desk.collect(answer)
}

#[test]
fn job_that_is_stopped_at_any_poll_is_released(rt: HostRuntime) {
    let entries = Entries::new(rt.alloc()).expect(&rt, "memory");
    let mut scene = Scene::open(&rt, rt.alloc(), &entries, &[]);
    let mut released = 0u32;
    for poll in 1..1000u32 {
        match stopped(&rt, &mut scene, u64::from(poll)) {
            Collected::Accepted => break,
            other => same(
                &rt,
                &other,
                &Collected::Released(EvolveFault::Stopped),
                &poll,
            ),
        }
        released = poll;
    }
    assert!(&rt; released > 0, "nothing was stopped");
    let given = scene.desk.given();
    same(&rt, &given, &released.saturating_add(1), &"given");
    scene.settles_well(&rt, given.saturating_add(1));
    scene.shows(&rt, 1, "1 2\n");
}
