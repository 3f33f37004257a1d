use super::{ONE, plane_of, same};
use counted_engine::{Asking, Report, evolve_by};
use plane_core::{Around, Ask, Next, NoStop};
use std::alloc::Global;
use std::process::Abort;
use step_engine::fits;
use test_planes::{Row, is_below};
use test_rules::{OneOfTwo, Star};

// Where `Around` has the neighbours.
const EAST: usize = 3;

const SOUTH_EAST: usize = 4;

const SOUTH: usize = 5;

const SOME_SQUARES: u32 = 100_000;

/// A rule that keeps what it was asked, in order.
#[derive(Drop)]
struct Noting<Q: Ask> {
    rule: Q,
    asked: Vec<Around>,
}

impl<Q: Ask> Ask for Noting<Q> {
    ghost state_count = { λ n. Q.state_count n.rule };

    ghost meaning = { λ n. Q.meaning n.rule };

    ghost asks = { λ n. Q.asks n.rule };

    ghost quiet = { λ n. Q.quiet n.rule };

    ghost below = { λ n. Q.below n.rule };

    fn states(&self) -> u16 {
        self.rule.states()
    }

    fn ask(&mut self, around: &Around) -> u8 {
        // An ask that isn't kept for 'out of memory' is missed in the test.
        let _kept = self.asked.push(*around);
        self.rule.ask(around)
    }
}

/// Whether four asks are those of one block, in the order nw, ne, sw, se.
fn is_block(four: &[Around]) -> bool {
    match four {
        [nw, ne, sw, se] => {
            nw.0[EAST] == ne.0[0] && nw.0[SOUTH] == sw.0[0] && nw.0[SOUTH_EAST] == se.0[0]
        }
        _ => false,
    }
}

/// Stops the test where these four asks aren't those of a block, or stand earlier too.
fn expect_new(rt: &impl Abort, asked: &[Around], place: usize, four: &[Around]) {
    assert!(rt; is_block(four), "{place}: {four:?} is no block");
    let again = asked.chunks(4).take(place).any(|earlier| earlier == four);
    assert!(rt; !again, "{place}: {four:?} was asked before");
}

/// What the rule was asked on the way, and the report of it.
fn asked<R: Next>(
    rt: &impl Abort,
    alloc: Global,
    rule: &R,
    rows: &[Row],
    generations: u64,
) -> (Vec<Around>, Report) {
    let plane = plane_of(rt, alloc, rows);
    let mut noting = Noting {
        rule: Asking::new(rule),
        asked: Vec::new(alloc),
    };
    assert!(rt;
        is_below(&plane, noting.states()),
        "a state isn't the rule's"
    );
    assert!(rt; generations <= 1 << 60);
    assert!(rt; fits(&plane, generations));
    let later = evolve_by(
        alloc,
        &mut noting,
        &plane,
        generations,
        &mut NoStop,
        SOME_SQUARES,
    );
    (noting.asked, later.expect(rt, "a plane").report)
}

/// Stops the test where the rule isn't asked for each block once.
fn expect_once<R: Next>(rt: &impl Abort, alloc: Global, rule: &R, rows: &[Row], generations: u64) {
    let (asked, report) = asked(rt, alloc, rule, rows, generations);
    let wanted = 4 * u64::from(report.base);
    same(rt, &(asked.len() as u64), &wanted, &generations);
    for (place, four) in asked.chunks(4).enumerate() {
        expect_new(rt, &asked, place, four);
    }
}

#[test]
fn asks_for_each_block_once(rt: HostRuntime) {
    let alloc = rt.alloc();
    expect_once(&rt, alloc, &OneOfTwo, ONE, 0);
    expect_once(&rt, alloc, &OneOfTwo, ONE, 21);
    expect_once(&rt, alloc, &Star, ONE, 13);
    expect_once(&rt, alloc, &Star, &[(0, 0, 1), (5, 9, 1)], 32);
}
