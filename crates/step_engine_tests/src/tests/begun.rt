use super::sequences::Dice;
use super::{plane_of, same};
use bumpalo::Bump;
use plain_engine::evolve_plain;
use plane_core::{Next, NoStop, Plane};
use std::alloc::Global;
use std::process::Abort;
use step_engine::{Engine, EvolveFault, fits};
use test_planes::{Row, is_below};
use test_rules::{Life, OneOfTwo};

// From the second on an engine of a rule of two states begins anew with the small squares, once it made
// many.
const LIMITS: &[u32] = &[(1 << 18) - 1, 1 << 18];

const GLIDER: &[Row] = &[(1, 0, 1), (2, 1, 1), (0, 2, 1), (1, 2, 1), (2, 2, 1)];

const BLINKER: &[Row] = &[(0, 0, 1), (1, 0, 1), (2, 0, 1)];

/// The live cells of a square of such a side, three of eight of all.
fn soup(rt: &impl Abort, alloc: Global, seed: u64, side: u8) -> Vec<Row> {
    let mut dice = Dice { state: seed };
    let mut rows = Vec::new(alloc);
    for y in 0..side {
        for x in 0..side {
            if dice.throw() < 96 {
                rows.push((i64::from(x) - 8, i64::from(y) - 8, 1))
                    .expect(rt, "memory");
            }
        }
    }
    rows
}

/// The plane one generation later.
fn stepped<R: Next>(rt: &impl Abort, alloc: Global, rule: &R, plane: &Plane) -> Plane {
    assert!(rt; is_below(plane, rule.states()), "a state isn't the rule's");
    assert!(rt; fits(plane, 1));
    let answer = evolve_plain(alloc, rule, plane, 1, &mut NoStop, 0);
    answer.expect(rt, "a plane").plane
}

/// Stops the test where the engine gives another plane than the wanted one.
fn expect_plane<R: Next>(
    rt: &impl Abort,
    engine: &mut Engine<'_, R>,
    plane: &Plane,
    generations: u64,
    wanted: &Plane,
) {
    assert!(rt;
        is_below(plane, engine.rule().states()),
        "a state isn't the rule's"
    );
    assert!(rt; generations <= 1 << 60);
    assert!(rt; fits(plane, generations));
    let found = engine.evolve(plane, generations, &mut NoStop);
    let found = found.expect(rt, "a plane");
    assert!(rt; found.equals(wanted), "{generations}: another plane");
}

/// Stops the test where the engine gives another plane than single steps, for some of the counts of
/// generations.
fn expect_counts<R: Next>(
    rt: &impl Abort,
    alloc: Global,
    engine: &mut Engine<'_, R>,
    rows: &[Row],
) {
    let plane = plane_of(rt, alloc, rows);
    let mut wanted = plane_of(rt, alloc, rows);
    for generations in 0..41 {
        expect_plane(rt, engine, &plane, generations, &wanted);
        wanted = stepped(rt, alloc, engine.rule(), &wanted);
    }
}

/// Evolves a plane that shares few squares with others.
fn crowd<R: Next>(rt: &impl Abort, alloc: Global, engine: &mut Engine<'_, R>, seed: u64) {
    let rows = soup(rt, alloc, seed, 96);
    let plane = plane_of(rt, alloc, &rows);
    assert!(rt;
        is_below(&plane, engine.rule().states()),
        "a state isn't the rule's"
    );
    assert!(rt; fits(&plane, 32));
    let found = engine.evolve_in_pieces(&plane, 32, &mut NoStop);
    same(rt, &found.err(), &None::<EvolveFault>, &seed);
}

/// One engine, which made many squares before, and each start by each count.
fn expect_starts<R: Next>(rt: &impl Abort, alloc: Global, rule: &R, limit: u32) {
    let arena = Bump::new(alloc);
    let mut engine = Engine::new(alloc, &arena, rule, limit).expect(rt, "memory");
    for seed in 2..6 {
        crowd(rt, alloc, &mut engine, seed);
    }
    let soup = soup(rt, alloc, 1, 16);
    for rows in [GLIDER, soup.as_slice(), BLINKER, GLIDER] {
        expect_counts(rt, alloc, &mut engine, rows);
    }
}

#[test]
fn an_engine_gives_the_same_with_the_small_squares(rt: HostRuntime) {
    for limit in LIMITS {
        expect_starts(&rt, rt.alloc(), &Life, *limit);
        expect_starts(&rt, rt.alloc(), &OneOfTwo, *limit);
    }
}

// After some of these planes the squares are given up.
#[test]
fn an_engine_gives_the_same_after_its_squares_were_given_up(rt: HostRuntime) {
    let alloc = rt.alloc();
    for limit in LIMITS {
        let arena = Bump::new(alloc);
        let mut engine = Engine::new(alloc, &arena, &Life, *limit).expect(&rt, "memory");
        for seed in 0..8 {
            crowd(&rt, alloc, &mut engine, seed);
            expect_counts(&rt, alloc, &mut engine, GLIDER);
        }
    }
}
