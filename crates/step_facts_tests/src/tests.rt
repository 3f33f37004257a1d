//! Which steps are found among facts.
ghost use Rattle.std.specs.Prelude.{◌≡◌, IsTrue};
ghost use Rattle.std.specs.Arc.{arc_value};
ghost use Rattle.revision_jobs.specs.Value.{CanBeStepped, world_after};
ghost use Rattle.step_engine.specs.Evolved.{CanEvolve};

use basics::Listing;
use plain_engine::evolve_plain;
use plane_core::{Next, NoStop, Plane};
use revision_jobs::Step;
use rule_tree::Rule;
use std::alloc::Global;
use std::num::NonZeroUsize;
use std::process::Abort;
use std::sync::Arc;
use step_engine::fits;
use step_facts::Facts;
use test_planes::{all_can_be_laid, is_below, plane_of, sets_of};

const X: &[u8] =
    b"@RULE X\n@TABLE\nn_states:2\nneighborhood:oneDimensional\nsymmetries:none\n0,1,0,1\n0,0,1,1\n1,0,0,0\n1,1,1,0\n";

// X by another name.
const SAME_AS_X: &[u8] =
    b"@RULE Same\n@TABLE\nn_states:2\nneighborhood:oneDimensional\nsymmetries:none\n0,1,0,1\n0,0,1,1\n1,0,0,0\n1,1,1,0\n";

// As X, but that a cell stays which has no live neighbour.
const OTHER: &[u8] =
    b"@RULE X\n@TABLE\nn_states:2\nneighborhood:oneDimensional\nsymmetries:none\n0,1,0,1\n0,0,1,1\n1,1,1,0\n";

const MOST_GENERATIONS: u64 = 1 << 60;

// A step from the pattern whose one live cell is (column, 0), on which (cell, 1) is set to 1.
#[derive(Clone, Copy, Debug)]
struct Case {
    rule: &'static [u8],
    column: i64,
    cell: i64,
    gens: u64,
}

const CASE: Case = Case {
    rule: X,
    column: 0,
    cell: 3,
    gens: 2,
};

fn can_evolve(plane: &Plane, states: u16, gens: u64) -> bool
    ensures { IsTrue result → CanEvolve states gens plane.now }
{
    is_below(plane, states) && gens <= MOST_GENERATIONS && fits(plane, gens)
}

fn step_of(rt: &impl Abort, alloc: Global, case: &Case) -> Step
    ensures { CanBeStepped result }
{
    let rule = Rule::read(alloc, case.rule).expect(rt, "a rule");
    let from = plane_of(alloc, &[(case.column, 0, 1)]).expect(rt, "memory");
    let cells = sets_of(alloc, &[(case.cell, 1, 1)]).expect(rt, "memory");
    assert!(rt; all_can_be_laid(&cells), "{case:?}");
    let laid = from.lay(&cells).expect(rt, "memory");
    assert!(rt; can_evolve(&laid, rule.states(), case.gens), "{case:?}");
    Step {
        rule: Arc::new(alloc, rule).expect(rt, "memory"),
        from: Arc::new(alloc, from).expect(rt, "memory"),
        cells: Listing::from_vec(cells),
        gens: case.gens,
    }
}

fn value_of(rt: &impl Abort, alloc: Global, step: &Step) -> Arc<Plane>
    requires { CanBeStepped step.now }
    ensures { arc_value result ≡ world_after step.now }
{
    let laid = step.from.lay(step.cells.as_slice()).expect(rt, "memory");
    let evolved = evolve_plain(alloc, &*step.rule, &laid, step.gens, &mut NoStop, 0).expect(
        rt, "memory",
    );
    Arc::new(alloc, evolved.plane).expect(rt, "memory")
}

fn facts_for(rt: &impl Abort, alloc: Global, most: usize) -> Facts {
    let most = NonZeroUsize::new(most).expect(rt, "more than none");
    Facts::new(alloc, most)
}

fn keep(rt: &impl Abort, alloc: Global, facts: &mut Facts, case: &Case) {
    let step = step_of(rt, alloc, case);
    let value = value_of(rt, alloc, &step);
    facts.keep(&step, &value).expect(rt, "memory");
}

fn expect_found(rt: &impl Abort, alloc: Global, facts: &mut Facts, case: &Case) {
    let step = step_of(rt, alloc, case);
    let wanted = value_of(rt, alloc, &step);
    let found = facts.recall(&step).expect(rt, "memory");
    let found = found.expect(rt, "the fact is kept");
    assert!(rt; found.equals(&wanted), "{case:?}");
}

fn expect_lacking(rt: &impl Abort, alloc: Global, facts: &mut Facts, case: &Case) {
    let step = step_of(rt, alloc, case);
    let found = facts.recall(&step).expect(rt, "memory");
    assert!(rt; found.is_none(), "{case:?}");
}

const OTHERS: [Case; 4] = [
    Case { gens: 3, ..CASE },
    Case { cell: 4, ..CASE },
    Case { column: 1, ..CASE },
    Case {
        rule: OTHER,
        ..CASE
    },
];

#[test]
fn a_step_is_found_whatever_its_rule_is_called(rt: HostRuntime) {
    let mut facts = facts_for(&rt, rt.alloc(), 2);
    expect_lacking(&rt, rt.alloc(), &mut facts, &CASE);
    keep(&rt, rt.alloc(), &mut facts, &CASE);
    expect_found(&rt, rt.alloc(), &mut facts, &CASE);
    let named = Case {
        rule: SAME_AS_X,
        ..CASE
    };
    expect_found(&rt, rt.alloc(), &mut facts, &named);
}

#[test]
fn other_steps_are_not_found(rt: HostRuntime) {
    let mut facts = facts_for(&rt, rt.alloc(), 8);
    keep(&rt, rt.alloc(), &mut facts, &CASE);
    for case in &OTHERS {
        expect_lacking(&rt, rt.alloc(), &mut facts, case);
    }
    for case in &OTHERS {
        keep(&rt, rt.alloc(), &mut facts, case);
    }
    for case in &OTHERS {
        expect_found(&rt, rt.alloc(), &mut facts, case);
    }
    expect_found(&rt, rt.alloc(), &mut facts, &CASE);
}

#[test]
fn what_was_used_last_stays(rt: HostRuntime) {
    let mut facts = facts_for(&rt, rt.alloc(), 2);
    keep(&rt, rt.alloc(), &mut facts, &OTHERS[0]);
    keep(&rt, rt.alloc(), &mut facts, &OTHERS[1]);
    expect_found(&rt, rt.alloc(), &mut facts, &OTHERS[0]);
    keep(&rt, rt.alloc(), &mut facts, &OTHERS[2]);
    expect_found(&rt, rt.alloc(), &mut facts, &OTHERS[0]);
    expect_lacking(&rt, rt.alloc(), &mut facts, &OTHERS[1]);
    expect_found(&rt, rt.alloc(), &mut facts, &OTHERS[2]);
}

// Of four steps the last ones are found, as many as there is room for, and no older one.
#[test]
fn as_many_are_kept_as_there_is_room_for(rt: HostRuntime) {
    for most in 1..=OTHERS.len() {
        let mut facts = facts_for(&rt, rt.alloc(), most);
        for case in &OTHERS {
            keep(&rt, rt.alloc(), &mut facts, case);
        }
        let (older, last) = OTHERS.split_at(OTHERS.len() - most);
        for case in older {
            expect_lacking(&rt, rt.alloc(), &mut facts, case);
        }
        for case in last {
            expect_found(&rt, rt.alloc(), &mut facts, case);
        }
    }
}
