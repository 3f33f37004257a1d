use super::{ONE, plane_of, same};
use bumpalo::Bump;
use plain_engine::evolve_plain;
use plane_core::{Next, NoStop, Plane};
use std::alloc::Global;
use std::process::Abort;
use step_engine::{Engine, EvolveFault, fits};
use test_planes::{Row, is_below};
use test_rules::{Copying, OneOfTwo};

const WEST: usize = 7;

// Cells with no order, which share few squares.
const SCATTERED: &[Row] = &[
    (-14, -8, 1),
    (-13, -2, 1),
    (-13, 9, 1),
    (-12, -13, 1),
    (-12, -11, 1),
    (-12, -10, 1),
    (-12, 4, 1),
    (-11, 11, 1),
    (-10, -4, 1),
    (-9, -2, 1),
    (-9, 10, 1),
    (-7, -9, 1),
    (-7, 15, 1),
    (-6, 5, 1),
    (-3, -14, 1),
    (-3, 15, 1),
    (-1, -11, 1),
    (-1, -5, 1),
    (1, 14, 1),
    (2, -12, 1),
    (2, 8, 1),
    (2, 10, 1),
    (3, -5, 1),
    (3, 12, 1),
    (3, 15, 1),
    (4, -7, 1),
    (5, 6, 1),
    (5, 12, 1),
    (7, -13, 1),
    (7, -10, 1),
    (7, 3, 1),
    (9, -13, 1),
    (10, -14, 1),
    (10, -12, 1),
    (11, -13, 1),
    (11, 4, 1),
    (13, 13, 1),
    (15, 13, 1),
];

/// What an engine answers at once and then in pieces.
fn both<R: Next>(
    rt: &impl Abort,
    engine: &mut Engine<'_, R>,
    plane: &Plane,
    generations: u64,
) -> (Result<Plane, EvolveFault>, Result<Plane, EvolveFault>) {
    assert!(rt;
        is_below(plane, engine.rule().states()),
        "a state isn't the rule's"
    );
    assert!(rt; generations <= 1 << 60);
    assert!(rt; fits(plane, generations));
    let at_once = engine.evolve(plane, generations, &mut NoStop);
    let in_pieces = engine.evolve_in_pieces(plane, generations, &mut NoStop);
    (at_once, in_pieces)
}

/// Stops the test where what an engine of so many squares answers in pieces isn't the wanted plane,
/// or isn't there though there is an answer at once. Whether there is one in pieces alone.
fn is_in_pieces_alone<R: Next>(
    rt: &impl Abort,
    alloc: Global,
    rule: &R,
    plane: &Plane,
    generations: u64,
    wanted: &Plane,
    limit: u32,
) -> bool {
    let arena = Bump::new(alloc);
    let mut engine = Engine::new(alloc, &arena, rule, limit).expect(rt, "memory");
    let (at_once, in_pieces) = both(rt, &mut engine, plane, generations);
    match in_pieces {
        Ok(found) => {
            assert!(rt; found.equals(wanted), "{limit}: another plane");
            at_once.is_err()
        }
        Err(fault) => {
            same(rt, &fault, &EvolveFault::NoRoom, &limit);
            assert!(rt; at_once.is_err(), "{limit}: an answer at once alone");
            false
        }
    }
}

#[test]
fn goes_in_pieces_where_there_is_no_room_for_all(rt: HostRuntime) {
    let alloc = rt.alloc();
    let rule = Copying { from: WEST };
    let plane = plane_of(&rt, alloc, SCATTERED);
    assert!(rt; is_below(&plane, 256));
    assert!(rt; fits(&plane, 45));
    let answer = evolve_plain(alloc, &rule, &plane, 45, &mut NoStop, 0);
    let wanted = answer.expect(&rt, "a plane").plane;
    let mut any = false;
    for tens in 0..60u32 {
        any |= is_in_pieces_alone(&rt, alloc, &rule, &plane, 45, &wanted, tens * 10);
    }
    assert!(rt; any, "no answer in pieces alone");
}

/// Stops the test where a kept engine of so many squares gives another plane than the plain way, or
/// none though it is asked for one that has room.
fn is_plain_way<R: Next>(
    rt: &impl Abort,
    alloc: Global,
    engine: &mut Engine<'_, R>,
    plane: &Plane,
    generations: u64,
    limit: u32,
) {
    assert!(rt;
        is_below(plane, engine.rule().states()),
        "a state isn't the rule's"
    );
    assert!(rt; generations <= 1 << 60);
    assert!(rt; fits(plane, generations));
    let answer = evolve_plain(alloc, engine.rule(), plane, generations, &mut NoStop, 0);
    let wanted = answer.expect(rt, "a plane").plane;
    let found = engine.evolve_in_pieces(plane, generations, &mut NoStop);
    let found = found.expect(rt, "a plane in pieces");
    assert!(rt;
        found.equals(&wanted),
        "{generations} by {limit}: another plane"
    );
}

#[test]
fn goes_by_leaps_as_the_plain_way_does(rt: HostRuntime) {
    let alloc = rt.alloc();
    let rule = Copying { from: WEST };
    let plane = plane_of(&rt, alloc, SCATTERED);
    for limit in [500, 1000, 20000] {
        let arena = Bump::new(alloc);
        let mut engine = Engine::new(alloc, &arena, &rule, limit).expect(&rt, "memory");
        for generations in [1, 20, 5] {
            is_plain_way(&rt, alloc, &mut engine, &plane, generations, limit);
        }
    }
}

#[test]
fn finds_no_room_however_many_generations_there_are(rt: HostRuntime) {
    let alloc = rt.alloc();
    let plane = plane_of(&rt, alloc, ONE);
    let arena = Bump::new(alloc);
    let mut engine = Engine::new(alloc, &arena, &OneOfTwo, 64).expect(&rt, "memory");
    let (at_once, in_pieces) = both(&rt, &mut engine, &plane, 1 << 60);
    same(&rt, &at_once.err(), &Some(EvolveFault::NoRoom), &"at once");
    same(
        &rt,
        &in_pieces.err(),
        &Some(EvolveFault::NoRoom),
        &"in pieces",
    );
}
