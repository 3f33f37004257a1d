//! Steps and views that wait while gates hold the workers.
ghost use Rattle.std.specs.Prelude.{vec_len, ◌≡◌};
ghost use Rattle.revision_jobs.specs.Entries.{IsOf};

use super::entries::{push_step, push_view, table};
use super::gates::{Waiting, is_raised};
use super::{SQUARES, TURNS, answered, is_taken, pair, received, same, send_below, single};
use bookmarks::View;
use job_pool::{PoolPost, pool};
use revision_jobs::{Gate, Place, Post};
use std::alloc::Global;
use std::process::Abort;
use std::sync::atomic::{AtomicBool, AtomicU32, Ordering};
use std::thread;

/// The turn of no job.
const NOBODY: u32 = 1000;

/// Holds each job up until it is its turn.
#[derive(Drop)]
struct InTurn<'a> {
    turn: &'a AtomicU32,
}

impl<'a> Gate for InTurn<'a> {
    fn begin(&mut self, number: u32) {
        for _ in 0..TURNS {
            if self.turn.load(Ordering::SeqCst) == number {
                return;
            }
            thread::yield_now();
        }
    }

    fn end(&mut self, _number: u32) {}
}

/// Says that a job has begun, and holds it up until it may go on.
#[derive(Drop)]
struct Holding<'a> {
    begun: &'a AtomicBool,
    go_on: &'a AtomicBool,
}

impl<'a> Gate for Holding<'a> {
    fn begin(&mut self, _number: u32) {
        self.begun.store(true, Ordering::SeqCst);
        let _raised = is_raised(self.go_on);
    }

    fn end(&mut self, _number: u32) {}
}

/// Four gates over one turn.
fn four_gates<'a>(rt: &impl Abort, alloc: Global, turn: &'a AtomicU32) -> Vec<InTurn<'a>>
    ensures { vec_len result ≡ 4 }
{
    let mut gates = Vec::new(alloc);
    gates.push(InTurn { turn }).expect(rt, "memory");
    gates.push(InTurn { turn }).expect(rt, "memory");
    gates.push(InTurn { turn }).expect(rt, "memory");
    gates.push(InTurn { turn }).expect(rt, "memory");
    gates
}

/// Sends four jobs, and lets them go on one after another: each answers before the next may.
fn answer_by_turns<P: Post>(
    rt: &impl Abort,
    post: &mut P,
    place: &Place,
    turn: &AtomicU32,
    order: &[u32],
)
    requires { IsOf (P.view post.old).table place.now }
{
    send_below(rt, post, place, 4);
    for number in order {
        turn.store(*number, Ordering::SeqCst);
        same(rt, &received(rt, post).number(), number, &"turn");
    }
}

#[test]
fn answers_come_in_any_order(rt: HostRuntime) {
    let alloc = rt.alloc();
    let entries = table(&rt, alloc);
    let place = push_view(&rt, alloc, &entries, View::Counts);
    let turn = AtomicU32::new(NOBODY);
    let gates = four_gates(&rt, alloc, &turn);
    let body = |post: &mut PoolPost<'_, HostRuntime>, _input: ()| -> ()
        requires { IsOf post.old.table place }
    { answer_by_turns(&rt, post, &place, &turn, &[2, 0, 3, 1]) };
    answered(&rt, pool(&rt, alloc, &entries, gates, SQUARES, (), body));
}

/// Receives answers, whose numbers have to be these.
fn expect_numbers<P: Post>(rt: &impl Abort, post: &mut P, numbers: &[u32]) {
    for number in numbers {
        same(rt, &received(rt, post).number(), number, &"number");
    }
}

/// Sends a step, and others with views behind it once it has begun, and then lets all of them go on.
fn work_views_first<P: Post>(
    rt: &impl Abort,
    post: &mut P,
    step: &Place,
    view: &Place,
    begun: &AtomicBool,
    go_on: &AtomicBool,
)
    requires { IsOf (P.view post.old).table step.now × IsOf (P.view post.old).table view.now }
{
    assert!(rt; is_taken(rt, post, 0, step), "0");
    assert!(rt; is_raised(begun), "job 0 has not begun");
    assert!(rt; is_taken(rt, post, 1, step), "1");
    assert!(rt; is_taken(rt, post, 2, view), "2");
    assert!(rt; is_taken(rt, post, 3, step), "3");
    assert!(rt; is_taken(rt, post, 4, view), "4");
    go_on.store(true, Ordering::SeqCst);
    expect_numbers(rt, post, &[0, 2, 4, 1, 3]);
}

#[test]
fn views_go_before_steps_that_wait(rt: HostRuntime) {
    let alloc = rt.alloc();
    let entries = table(&rt, alloc);
    let step = push_step(&rt, alloc, &entries, 5);
    let view = push_view(&rt, alloc, &entries, View::Counts);
    let begun = AtomicBool::new(false);
    let go_on = AtomicBool::new(false);
    let gate = Holding {
        begun: &begun,
        go_on: &go_on,
    };
    let gates = single(&rt, alloc, gate);
    let body = |post: &mut PoolPost<'_, HostRuntime>, _input: ()| -> ()
        requires { IsOf post.old.table step × IsOf post.old.table view }
    { work_views_first(&rt, post, &step, &view, &begun, &go_on) };
    answered(&rt, pool(&rt, alloc, &entries, gates, SQUARES, (), body));
}

/// Sends four jobs of the numbers from one on, each of which has to be taken at once.
fn send_four<P: Post>(rt: &impl Abort, post: &mut P, place: &Place, first: u32)
    requires { IsOf (P.view post.old).table place.now }
    ensures { (P.view post.new).table ≡ (P.view post.old).table }
{
    assert!(rt; is_taken(rt, post, first, place), "first");
    assert!(rt; is_taken(rt, post, first.wrapping_add(1), place), "second");
    assert!(rt; is_taken(rt, post, first.wrapping_add(2), place), "third");
    assert!(rt; is_taken(rt, post, first.wrapping_add(3), place), "fourth");
}

/// Receives so many answers, and adds their numbers up.
fn sum_of<P: Post>(rt: &impl Abort, post: &mut P, count: u32) -> u32 {
    let mut sum = 0u32;
    for _ in 0..count {
        sum = sum.wrapping_add(received(rt, post).number());
    }
    sum
}

/// Fills both lanes while two steps are held, and then lets all go on. The sum of the answers' numbers.
fn fill_lanes<P: Post>(
    rt: &impl Abort,
    post: &mut P,
    step: &Place,
    view: &Place,
    go_on: &AtomicBool,
) -> u32
    requires { IsOf (P.view post.old).table step.now × IsOf (P.view post.old).table view.now }
{
    send_below(rt, post, step, 18);
    send_four(rt, post, view, 18);
    send_four(rt, post, view, 22);
    send_four(rt, post, view, 26);
    send_four(rt, post, view, 30);
    assert!(rt; !is_taken(rt, post, 34, view), "a view beyond the room");
    assert!(rt; !is_taken(rt, post, 34, step), "a step beyond the room");
    go_on.store(true, Ordering::SeqCst);
    sum_of(rt, post, 34)
}

// Each worker holds a step, and 16 more steps and 16 views wait.
#[test]
fn all_that_waits_is_answered(rt: HostRuntime) {
    let alloc = rt.alloc();
    let entries = table(&rt, alloc);
    let step = push_step(&rt, alloc, &entries, 5);
    let view = push_view(&rt, alloc, &entries, View::Counts);
    let go_on = AtomicBool::new(false);
    let gates = pair(
        &rt,
        alloc,
        Waiting { flag: &go_on },
        Waiting { flag: &go_on },
    );
    let body = |post: &mut PoolPost<'_, HostRuntime>, _input: ()| -> u32
        requires { IsOf post.old.table step × IsOf post.old.table view }
    { fill_lanes(&rt, post, &step, &view, &go_on) };
    let sum = answered(&rt, pool(&rt, alloc, &entries, gates, SQUARES, (), body));
    same(&rt, &sum, &561, &"sum");
}
