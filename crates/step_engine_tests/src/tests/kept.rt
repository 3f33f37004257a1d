use super::{ONE, plane_of, same};
use bumpalo::Bump;
use counted_engine::evolve;
use plane_core::{Next, NoStop, Plane};
use std::alloc::Global;
use std::process::Abort;
use step_engine::{Engine, EvolveFault, fits};
use test_planes::{Row, is_below};
use test_rules::{Countdown, OneOfTwo, Star};

const MANY: u64 = 1 << 20;

const SOME_SQUARES: u32 = 100_000;

/// Live cells of a start, and how many generations it is evolved.
struct Case {
    rows: &'static [Row],
    generations: u64,
}

// The same start comes again by another count, and the same count with another start.
const SEQUENCE: &[Case] = &[
    Case {
        rows: &[(0, 0, 1)],
        generations: 8,
    },
    Case {
        rows: &[(0, 0, 1), (3, 1, 1), (-5, 2, 1)],
        generations: 8,
    },
    Case {
        rows: &[(0, 0, 1)],
        generations: 3,
    },
    Case {
        rows: &[],
        generations: 9,
    },
    Case {
        rows: &[(-8, -8, 1), (7, 7, 1), (7, -8, 1)],
        generations: 0,
    },
    Case {
        rows: &[(1, 0, 1), (2, 0, 1), (3, 0, 1)],
        generations: 11,
    },
    Case {
        rows: &[(0, 0, 1)],
        generations: 8,
    },
];

/// What the engine gives. The test stops where `evolve` answers otherwise, but that the engine, which
/// makes fewer squares, may have room for a plane where `evolve` has none.
pub fn expect_alike<R: Next>(
    rt: &impl Abort,
    alloc: Global,
    engine: &mut Engine<'_, R>,
    plane: &Plane,
    generations: u64,
    limit: u32,
) -> Option<Plane> {
    let rule = engine.rule();
    assert!(rt; is_below(plane, rule.states()), "a state isn't the rule's");
    assert!(rt; generations <= 1 << 60);
    assert!(rt; fits(plane, generations));
    let found = engine.evolve(plane, generations, &mut NoStop);
    let limit = if found.is_ok() { SOME_SQUARES } else { limit };
    match evolve(alloc, rule, plane, generations, &mut NoStop, limit) {
        Ok(wanted) => {
            let found = found.expect(rt, "a plane");
            assert!(rt; found.equals(&wanted.plane), "{generations}: another plane");
            Some(found)
        }
        Err(wanted) => {
            same(rt, &found.err(), &Some(wanted), &generations);
            None
        }
    }
}

/// One engine of so many squares, and all starts one after another.
fn expect_sequence<R: Next>(rt: &impl Abort, alloc: Global, rule: &R, limit: u32) {
    let arena = Bump::new(alloc);
    let mut engine = Engine::new(alloc, &arena, rule, limit).expect(rt, "memory");
    for case in SEQUENCE {
        let plane = plane_of(rt, alloc, case.rows);
        expect_alike(rt, alloc, &mut engine, &plane, case.generations, limit);
    }
}

#[test]
fn an_engine_answers_what_evolve_answers(rt: HostRuntime) {
    for limit in 0..150 {
        expect_sequence(&rt, rt.alloc(), &OneOfTwo, limit);
        expect_sequence(&rt, rt.alloc(), &Star, limit);
    }
}

/// How often the engine polls the stop on the way of a row of one cell.
fn polls(
    rt: &impl Abort,
    alloc: Global,
    engine: &mut Engine<'_, OneOfTwo>,
    generations: u64,
) -> u64 {
    let plane = plane_of(rt, alloc, ONE);
    assert!(rt; is_below(&plane, engine.rule().states()));
    assert!(rt; generations <= 1 << 60);
    assert!(rt; fits(&plane, generations));
    let mut stop = Countdown { left: MANY };
    let answer = engine.evolve(&plane, generations, &mut stop);
    same(rt, &answer.err(), &None::<EvolveFault>, &generations);
    MANY.saturating_sub(stop.left)
}

// By 64 generations some results are by half the full counts, and are given up for those by 40.
#[test]
fn what_an_engine_found_is_not_computed_again(rt: HostRuntime) {
    let alloc = rt.alloc();
    let arena = Bump::new(alloc);
    let mut engine = Engine::new(alloc, &arena, &OneOfTwo, 4096).expect(&rt, "memory");
    let first = polls(&rt, alloc, &mut engine, 64);
    let again = polls(&rt, alloc, &mut engine, 64);
    let other = polls(&rt, alloc, &mut engine, 40);
    let back = polls(&rt, alloc, &mut engine, 64);
    same(&rt, &again, &0, &"the same once more");
    assert!(rt; 0 < other && 0 < back && back < first);
}
