use super::engine::{ONE, evolved};
use super::same;
use plane_core::{NoStop, Stop};
use std::alloc::Global;
use std::process::Abort;
use step_engine::EvolveFault;
use test_rules::{Countdown, OneOfTwo};

/// Stops the test where a stop that says yes at its third poll isn't asked before each generation.
fn expect_asked(
    rt: &impl Abort,
    alloc: Global,
    generations: u64,
    fault: Option<EvolveFault>,
    left: u64,
) {
    let mut stop = Countdown { left: 3 };
    let answer = evolved(rt, alloc, &OneOfTwo, ONE, generations, &mut stop);
    same(rt, &answer.err(), &fault, &generations);
    same(rt, &stop.left, &left, &generations);
}

#[test]
fn asks_the_stop_before_each_generation(rt: HostRuntime) {
    let alloc = rt.alloc();
    expect_asked(&rt, alloc, 0, None, 3);
    expect_asked(&rt, alloc, 1, None, 2);
    expect_asked(&rt, alloc, 2, None, 1);
    expect_asked(&rt, alloc, 3, Some(EvolveFault::Stopped), 0);
    expect_asked(&rt, alloc, 5, Some(EvolveFault::Stopped), 0);
    assert!(rt; !NoStop.poll());
}
