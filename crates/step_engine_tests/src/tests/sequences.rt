use super::kept::expect_alike;
use super::plane_of;
use bumpalo::Bump;
use plane_core::{Next, Plane};
use std::alloc::Global;
use std::process::Abort;
use step_engine::Engine;
use test_planes::Row;
use test_rules::{OneOfTwo, Star};

const SEQUENCES: u64 = 100;

/// Numbers without order that are the same in each run, by a linear congruence.
#[derive(Drop)]
pub struct Dice {
    pub state: u64,
}

impl Dice {
    /// One of the 256 numbers below 256.
    pub fn throw(&mut self) -> u8 {
        self.state = self
            .state
            .wrapping_mul(6364136223846793005)
            .wrapping_add(1442695040888963407);
        (self.state >> 56) as u8
    }
}

/// A row of a cell near the origin, in state 1.
fn cell(dice: &mut Dice) -> Row {
    (
        i64::from(dice.throw() % 16) - 8,
        i64::from(dice.throw() % 16) - 8,
        1,
    )
}

/// Up to seven cells.
fn cells(rt: &impl Abort, alloc: Global, dice: &mut Dice) -> Vec<Row> {
    let mut rows = Vec::new(alloc);
    for _ in 0..dice.throw() % 8 {
        rows.push(cell(dice)).expect(rt, "memory");
    }
    rows
}

/// Up to 15 generations, or a power of 2 of them.
fn generations(dice: &mut Dice) -> u64 {
    let few = dice.throw() % 16;
    if dice.throw() < 128 {
        u64::from(few)
    } else {
        1 << (few % 8)
    }
}

fn random_plane(rt: &impl Abort, alloc: Global, dice: &mut Dice) -> Plane {
    let rows = cells(rt, alloc, dice);
    plane_of(rt, alloc, &rows)
}

/// Stops the test where an engine answers other than `evolve` on the way of a random plane, and on
/// the way of what it gave.
fn expect_pair<R: Next>(
    rt: &impl Abort,
    alloc: Global,
    engine: &mut Engine<'_, R>,
    dice: &mut Dice,
    limit: u32,
) {
    let plane = random_plane(rt, alloc, dice);
    let first = generations(dice);
    let second = generations(dice);
    if let Some(later) = expect_alike(rt, alloc, engine, &plane, first, limit) {
        expect_alike(rt, alloc, engine, &later, second, limit);
    }
}

/// Stops the test where an engine of some small limit answers other than `evolve` in a sequence of
/// random planes, what it gave of each, and random counts.
fn expect_sequence<R: Next>(rt: &impl Abort, alloc: Global, rule: &R, seed: u64) {
    let mut dice = Dice { state: seed };
    let limit = u32::from(dice.throw());
    let arena = Bump::new(alloc);
    let mut engine = Engine::new(alloc, &arena, rule, limit).expect(rt, "memory");
    for _ in 0..6 {
        expect_pair(rt, alloc, &mut engine, &mut dice, limit);
    }
}

#[test]
fn an_engine_answers_what_evolve_answers_in_random_sequences(rt: HostRuntime) {
    for seed in 0..SEQUENCES {
        expect_sequence(&rt, rt.alloc(), &OneOfTwo, seed);
        expect_sequence(&rt, rt.alloc(), &Star, seed);
    }
}
