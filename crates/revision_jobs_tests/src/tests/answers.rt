ghost use Rattle.std.specs.Prelude.{◌≡◌};
ghost use Rattle.revision_jobs.specs.Entries.{IsOf};

use super::{cells_set, plane_of, push_from_one, push_step, push_view, same, shared, table};
use basics::{Listing, Refusal};
use bookmarks::View;
use plane_core::{NoStop, Plane, Stop};
use revision_jobs::{Answer, Entries, Gate, Job, NoGate, Outcome, Place, work};
use std::alloc::Global;
use std::process::Abort;
use std::sync::{Arc, Wait};
use test_planes::Row;

/// More squares than any of these jobs needs.
const SQUARES: u32 = 4096;

/// The answer to a job that nothing stops.
fn worked(alloc: Global, entries: &Entries, number: u32, place: Place) -> Answer
    requires { IsOf entries.now place }
    ensures { result.job.place ≡ place }
{
    let job = Job { number, place };
    work(alloc, job, entries, &mut NoGate, &mut NoStop, SQUARES)
}

fn plane_in(rt: &impl Abort, answer: Answer) -> Arc<Plane> {
    let outcome = answer.into_parts().outcome;
    match outcome {
        Outcome::Plane(plane) => plane,
        Outcome::Text(_) => panic!(rt; "a text"),
        Outcome::Gave(fault) => panic!(rt; "{fault:?}"),
    }
}

fn text_in(rt: &impl Abort, answer: Answer) -> Arc<Listing<u8>> {
    let outcome = answer.into_parts().outcome;
    match outcome {
        Outcome::Text(text) => text,
        Outcome::Plane(_) => panic!(rt; "a plane"),
        Outcome::Gave(fault) => panic!(rt; "{fault:?}"),
    }
}

/// Stops the test where the answer isn't the text.
fn expect_text(rt: &impl Abort, answer: Answer, wanted: &str) {
    let text = text_in(rt, answer);
    same(rt, &text.as_slice(), &wanted.as_bytes(), &"text");
}

/// Stops the test where so many generations of the one live cell (0, 0) aren't the cells.
fn expect_steps<R: Abort + Wait>(rt: &R, alloc: Global, gens: u64, wanted: &[Row]) {
    let entries = table(rt, alloc);
    let place = push_from_one(rt, alloc, &entries, gens);
    let plane = plane_in(rt, worked(alloc, &entries, 0, place));
    assert!(rt;
        plane.equals(&plane_of(rt, alloc, wanted)),
        "generation {gens}"
    );
}

#[test]
fn steps(rt: HostRuntime) {
    let alloc = rt.alloc();
    expect_steps(&rt, alloc, 0, &[(0, 0, 1)]);
    expect_steps(&rt, alloc, 1, &[(-1, 0, 1), (1, 0, 1)]);
    expect_steps(&rt, alloc, 2, &[(-2, 0, 1), (2, 0, 1)]);
    expect_steps(
        &rt,
        alloc,
        3,
        &[(-3, 0, 1), (-1, 0, 1), (1, 0, 1), (3, 0, 1)],
    );
    expect_steps(&rt, alloc, 8, &[(-8, 0, 1), (8, 0, 1)]);
}

#[test]
fn lays_before_it_steps(rt: HostRuntime) {
    let alloc = rt.alloc();
    let entries = table(&rt, alloc);
    let from = shared(&rt, alloc, plane_of(&rt, alloc, &[(-1, 0, 1), (1, 0, 1)]));
    let cells = cells_set(&rt, alloc, &[(1, 0, 1), (1, 0, 0)]);
    let place = push_step(&rt, alloc, &entries, from, cells, 1);
    let plane = plane_in(&rt, worked(alloc, &entries, 0, place));
    assert!(rt; plane.equals(&plane_of(&rt, alloc, &[(-2, 0, 1), (0, 0, 1)])));
}

/// Stops the test where the view of the pattern, with the cells laid on it, isn't the text.
fn expect_view<R: Abort + Wait>(
    rt: &R,
    alloc: Global,
    view: View,
    from: &[Row],
    cells: &[Row],
    wanted: &str,
) {
    let entries = table(rt, alloc);
    let from = shared(rt, alloc, plane_of(rt, alloc, from));
    let cells = cells_set(rt, alloc, cells);
    let place = push_view(rt, alloc, &entries, view, from, cells, 2);
    expect_text(rt, worked(alloc, &entries, 0, place), wanted);
}

#[test]
fn views(rt: HostRuntime) {
    let alloc = rt.alloc();
    let window = View::Window {
        left: -2,
        top: 0,
        width: 5,
        height: 1,
    };
    let ends = [(-2, 0, 1), (2, 0, 1)];
    expect_view(&rt, alloc, View::Counts, &ends, &[], "1 2\n");
    expect_view(&rt, alloc, View::Counts, &[], &[], "empty\n");
    expect_view(&rt, alloc, window, &ends, &[], "1 0 0 0 1\n");
    expect_view(
        &rt,
        alloc,
        window,
        &ends,
        &[(2, 0, 0), (0, 0, 1)],
        "1 0 1 0 0\n",
    );
    let rle = "#CXRLE Pos=-2,0 Gen=2\nx = 5, y = 1, rule = X\no3bo!\n";
    expect_view(&rt, alloc, View::Rle, &ends, &[], rle);
    let macrocell = "[M2] (experiment desk)\n#R X\n#G 2\n1 1 0 0 0\n2 0 1 0 0\n3 0 0 2 2\n";
    expect_view(&rt, alloc, View::Macrocell, &ends, &[], macrocell);
}

#[test]
fn answers_again(rt: HostRuntime) {
    let alloc = rt.alloc();
    let entries = table(&rt, alloc);
    let place = push_from_one(&rt, alloc, &entries, 8);
    let answer = worked(alloc, &entries, 7, place.share());
    let again = answer.again().expect(&rt, "memory");
    same(&rt, &again.number(), &7, &"number");
    same(&rt, &again.limit(), &SQUARES, &"limit");
    assert!(rt; entries.same(again.place(), &place));
    let once = plane_in(&rt, answer);
    assert!(rt; once.equals(&plane_in(&rt, again)));
}

#[test]
fn texts_again(rt: HostRuntime) {
    let alloc = rt.alloc();
    let entries = table(&rt, alloc);
    let from = shared(&rt, alloc, plane_of(&rt, alloc, &[(-4, 0, 1), (4, 0, 1)]));
    let none = cells_set(&rt, alloc, &[]);
    let place = push_view(&rt, alloc, &entries, View::Counts, from, none, 4);
    let answer = worked(alloc, &entries, 1, place);
    expect_text(&rt, answer.again().expect(&rt, "memory"), "1 2\n");
    expect_text(&rt, answer, "1 2\n");
}

/// Stops the test where the answer isn't the refusal of this number.
fn expect_gave(rt: &impl Abort, answer: Answer, number: u8) {
    let outcome = answer.into_parts().outcome;
    match outcome {
        Outcome::Gave(fault) => same(rt, &fault.reason().number, &number, &"fault"),
        Outcome::Plane(_) => panic!(rt; "a plane"),
        Outcome::Text(_) => panic!(rt; "a text"),
    }
}

#[test]
fn gives_up_at_a_raised_flag(rt: HostRuntime) {
    let alloc = rt.alloc();
    let entries = table(&rt, alloc);
    let place = push_from_one(&rt, alloc, &entries, 8);
    entries.raise(&place);
    let job = Job { number: 3, place };
    let mut stop = entries.stop(&job.place);
    let answer = work(alloc, job, &entries, &mut NoGate, &mut stop, SQUARES);
    same(&rt, &answer.number(), &3, &"number");
    expect_gave(&rt, answer.again().expect(&rt, "memory"), 72);
    expect_gave(&rt, answer, 72);
}

/// Stops the test where a step far on isn't given up for want of room with so many squares.
fn expect_no_room<R: Abort + Wait>(rt: &R, alloc: Global, squares: u32) {
    let entries = table(rt, alloc);
    let place = push_from_one(rt, alloc, &entries, 1 << 60);
    let job = Job { number: 4, place };
    let answer = work(alloc, job, &entries, &mut NoGate, &mut NoStop, squares);
    expect_gave(rt, answer, 71);
}

// The same step takes no more than `SQUARES` of them.
#[test]
fn keeps_to_its_limit(rt: HostRuntime) {
    let alloc = rt.alloc();
    expect_no_room(&rt, alloc, 0);
    expect_no_room(&rt, alloc, 64);
    let ends = [(-(1 << 60), 0, 1), (1 << 60, 0, 1)];
    expect_steps(&rt, alloc, 1 << 60, &ends);
}

/// Raises the flag of an entry when a job has ended.
#[derive(Drop)]
struct Raising<'e> {
    entries: &'e Entries,
    place: Place,
    ghost own: { IsOf entries.now place },
}

impl<'e> Gate for Raising<'e> {
    fn begin(&mut self, _number: u32) {}

    fn end(&mut self, _number: u32) {
        self.entries.raise(&self.place);
    }
}

#[test]
fn passes_the_end_after_its_work(rt: HostRuntime) {
    let alloc = rt.alloc();
    let entries = table(&rt, alloc);
    let place = push_from_one(&rt, alloc, &entries, 1);
    let mut gate = Raising {
        entries: &entries,
        place: place.share(),
    };
    let job = Job { number: 0, place };
    let mut stop = entries.stop(&job.place);
    let answer = work(alloc, job, &entries, &mut gate, &mut stop, SQUARES);
    let plane = plane_in(&rt, answer);
    assert!(rt; plane.equals(&plane_of(&rt, alloc, &[(-1, 0, 1), (1, 0, 1)])));
    assert!(rt; stop.poll(), "the flag is raised");
}

/// Notes the numbers with which it was passed, as digits.
#[derive(Drop)]
struct Noting {
    digits: u32,
}

impl Gate for Noting {
    fn begin(&mut self, number: u32) {
        self.digits = self.digits.wrapping_mul(10).wrapping_add(number);
    }

    fn end(&mut self, number: u32) {
        let after = number.wrapping_add(1);
        self.digits = self.digits.wrapping_mul(10).wrapping_add(after);
    }
}

#[test]
fn passes_the_gate_twice(rt: HostRuntime) {
    let alloc = rt.alloc();
    let entries = table(&rt, alloc);
    let place = push_from_one(&rt, alloc, &entries, 1);
    let mut gate = Noting { digits: 0 };
    let job = Job { number: 5, place };
    let answer = work(alloc, job, &entries, &mut gate, &mut NoStop, SQUARES);
    same(&rt, &answer.number(), &5, &"number");
    same(&rt, &gate.digits, &56, &"begun and ended");
}
