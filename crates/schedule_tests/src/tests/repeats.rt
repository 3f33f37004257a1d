//! Repeating interventions: where they act, how their marks are counted, and why they are refused.
use super::{
    EDGE, FAR, FOUR_STATES, Row, apply, cells_set, mark_on, number, opening, replace, same,
};
use schedule::{Acts, Document, Edit, Intervention};
use std::alloc::Global;
use std::process::Abort;

/// The first generation, the distance and the last generation of a repeating intervention.
type Times = (u64, u64, u64);

fn repeat(rt: &impl Abort, alloc: Global, branch: u64, times: Times, rows: &[Row]) -> Edit {
    let cells = cells_set(rt, alloc, rows);
    Edit::insert_repeat(branch, times.0, times.1, times.2, cells)
}

fn change_repeat(rt: &impl Abort, alloc: Global, id: u64, times: Times, rows: &[Row]) -> Edit {
    let cells = cells_set(rt, alloc, rows);
    Edit::change_repeat(id, times.0, times.1, times.2, cells)
}

fn once(rt: &impl Abort, alloc: Global, branch: u64, generation: u64) -> Edit {
    Edit::insert_intervention(branch, generation, cells_set(rt, alloc, &[(0, 0, 1)]))
}

fn change_once(rt: &impl Abort, alloc: Global, id: u64, generation: u64) -> Edit {
    Edit::change_intervention(id, generation, cells_set(rt, alloc, &[]))
}

fn fork(parent: u64, generation: u64) -> Edit {
    Edit::AddBranch { parent, generation }
}

fn moved(id: u64, generation: u64) -> Edit {
    Edit::MoveBookmark { id, generation }
}

fn acts_of(times: Times) -> Acts {
    Acts::Every {
        first: times.0,
        every: times.1,
        last: times.2,
    }
}

/// Stops the test where the edit isn't refused by this number; 0 is an accepted edit.
fn check_number(rt: &impl Abort, document: &mut Document, edit: &Edit, wanted: u8) {
    let at = (document.revision(), document.interventions().len());
    same(rt, &number(rt, document, edit), &wanted, &at);
}

/// When an intervention acts, a generation, and whether it acts there.
type Acting = (Times, u64, bool);

fn check_acts(rt: &impl Abort, case: &Acting) {
    same(rt, &acts_of(case.0).acts_at(case.1), &case.2, case);
}

#[test]
fn acts_from_first_to_last(rt: HostRuntime) {
    let cases: [Acting; 14] = [
        ((2, 2, 6), 1, false),
        ((2, 2, 6), 2, true),
        ((2, 2, 6), 3, false),
        ((2, 2, 6), 4, true),
        ((2, 2, 6), 6, true),
        ((2, 2, 6), 8, false),
        ((2, 3, 7), 5, true),
        ((2, 3, 7), 7, false),
        ((2, 3, 7), 8, false),
        ((5, u64::MAX, FAR), 5, true),
        ((5, u64::MAX, FAR), 4, false),
        ((5, u64::MAX, FAR), FAR, false),
        ((0, 1, FAR), FAR, true),
        ((0, 1, FAR), FAR + 1, false),
    ];
    for case in &cases {
        check_acts(&rt, case);
    }
}

/// When an intervention acts, how far its branch reaches, and how many marks it makes.
type Counted = (Times, u64, u64);

fn check_counted(rt: &impl Abort, case: &Counted) {
    same(rt, &acts_of(case.0).marks_to(case.1), &case.2, case);
}

#[test]
fn marks_are_counted(rt: HostRuntime) {
    let cases: [Counted; 12] = [
        ((2, 2, 6), 1, 0),
        ((2, 2, 6), 2, 1),
        ((2, 2, 6), 5, 2),
        ((2, 2, 6), 6, 3),
        ((2, 2, 6), FAR, 3),
        ((2, 3, 7), FAR, 2),
        ((1, 1, FAR), 8191, 8191),
        ((1, 1, FAR), 8192, 8192),
        ((0, 1, FAR), 8192, 8193),
        ((0, 1, FAR), FAR, FAR + 1),
        ((5, u64::MAX, FAR), FAR, 1),
        ((0, 1, u64::MAX), u64::MAX, u64::MAX),
    ];
    for case in &cases {
        check_counted(&rt, case);
    }
    same(&rt, &Acts::Once { generation: 3 }.marks_to(9), &0, &"once");
}

fn check_told(rt: &impl Abort, intervention: &Intervention, id: u64, branch: u64, acts: Acts) {
    let found = (intervention.id, intervention.branch, intervention.acts);
    same(rt, &found, &(id, branch, acts), &id);
    let ends = (acts.first(), acts.last(), acts.repeats());
    let repeats = acts != Acts::Once { generation: 9 };
    same(
        rt,
        &ends,
        &(intervention.acts.first(), intervention.acts.last(), repeats),
        &id,
    );
}

fn check_first(rt: &impl Abort, document: &Document, acts: Acts) {
    for intervention in document.interventions() {
        check_told(rt, intervention, 1, 0, acts);
    }
}

// One becomes the other in its place, with its id.
#[test]
fn single_and_repeating(rt: HostRuntime) {
    let alloc = rt.alloc();
    let mut document = opening(&rt, alloc, 0);
    let edited = apply(
        &rt,
        &mut document,
        &repeat(&rt, alloc, 0, (2, 2, 6), &[(0, 0, 1)]),
    );
    same(
        &rt,
        &(edited.revision, edited.id),
        &(1, Some(1)),
        &"inserted",
    );
    check_first(&rt, &document, acts_of((2, 2, 6)));
    apply(&rt, &mut document, &change_once(&rt, alloc, 1, 9));
    check_first(&rt, &document, Acts::Once { generation: 9 });
    let edited = apply(
        &rt,
        &mut document,
        &change_repeat(&rt, alloc, 1, (0, 3, 3), &[]),
    );
    same(&rt, &(edited.revision, edited.id), &(3, None), &"changed");
    check_first(&rt, &document, acts_of((0, 3, 3)));
    same(&rt, &document.interventions().len(), &1, &"one");
    apply(&rt, &mut document, &Edit::RemoveIntervention { id: 1 });
    same(&rt, &document.interventions().len(), &0, &"none");
    same(&rt, &document.last_intervention(), &1, &"last");
}

// From 1 to 2^60 at each generation: accepted at once, and counted as far as the bookmarks reach.
#[test]
fn too_many_marks(rt: HostRuntime) {
    let alloc = rt.alloc();
    let mut document = opening(&rt, alloc, 0);
    let all = repeat(&rt, alloc, 0, (0, 1, FAR), &[(0, 0, 1)]);
    check_number(&rt, &mut document, &all, 0);
    check_number(&rt, &mut document, &mark_on(0, 8191), 0);
    check_number(&rt, &mut document, &mark_on(0, 8192), 54);
    check_number(&rt, &mut document, &moved(1, 8192), 54);
    check_number(&rt, &mut document, &fork(0, 8192), 54);
    check_number(&rt, &mut document, &fork(0, 8191), 0);
    let one = repeat(&rt, alloc, 0, (8191, 1, 8191), &[(0, 0, 1)]);
    check_number(&rt, &mut document, &one, 54);
    let beyond = repeat(&rt, alloc, 0, (8192, 1, FAR), &[(0, 0, 1)]);
    check_number(&rt, &mut document, &beyond, 0);
    check_number(&rt, &mut document, &once(&rt, alloc, 0, 8191), 0);
    check_number(
        &rt,
        &mut document,
        &change_repeat(&rt, alloc, 2, (8191, 1, FAR), &[]),
        54,
    );
    check_number(
        &rt,
        &mut document,
        &change_repeat(&rt, alloc, 1, (1, 1, FAR), &[]),
        0,
    );
    check_number(&rt, &mut document, &one, 0);
    check_number(&rt, &mut document, &change_once(&rt, alloc, 1, 1), 0);
    check_number(&rt, &mut document, &mark_on(0, FAR), 54);
}

// The new reach is counted: a bookmark that moves down makes room, and each branch counts its own.
#[test]
fn marks_of_branches(rt: HostRuntime) {
    let alloc = rt.alloc();
    let mut document = opening(&rt, alloc, 0);
    check_number(&rt, &mut document, &fork(0, 4), 0);
    check_number(
        &rt,
        &mut document,
        &repeat(&rt, alloc, 0, (1, 1, FAR), &[]),
        0,
    );
    check_number(
        &rt,
        &mut document,
        &repeat(&rt, alloc, 1, (5, 1, FAR), &[]),
        0,
    );
    check_number(&rt, &mut document, &mark_on(0, 4096), 0);
    check_number(&rt, &mut document, &mark_on(1, 4101), 54);
    check_number(&rt, &mut document, &mark_on(1, 4100), 0);
    check_number(&rt, &mut document, &fork(1, 4101), 54);
    check_number(&rt, &mut document, &moved(1, 4097), 54);
    check_number(&rt, &mut document, &moved(1, 4095), 0);
    check_number(&rt, &mut document, &fork(1, 4101), 0);
    check_number(&rt, &mut document, &moved(1, 4096), 54);
}

/// A branch or an id, when the intervention is to act, its cells, and the numbers of the refusals
/// of inserting and of changing it.
type Refused = (u64, Times, &'static [Row], u8, u8);

fn check_refused(rt: &impl Abort, alloc: Global, document: &mut Document, case: &Refused) {
    let inserted = repeat(rt, alloc, case.0, case.1, case.2);
    check_number(rt, document, &inserted, case.3);
    let changed = change_repeat(rt, alloc, case.0, case.1, case.2);
    check_number(rt, document, &changed, case.4);
}

/// Branch 1 leaves at generation 2 and reaches 9000; its intervention 1 acts once.
fn branched(rt: &impl Abort, alloc: Global, revision: u64) -> Document {
    let mut document = opening(rt, alloc, revision);
    apply(rt, &mut document, &replace(rt, alloc, FOUR_STATES));
    apply(rt, &mut document, &fork(0, 2));
    apply(rt, &mut document, &once(rt, alloc, 1, 3));
    apply(rt, &mut document, &mark_on(1, 9000));
    document
}

// The branch or the id is looked at first, then how far it acts, its distance, the fork, the cells,
// the marks and at last the revision.
const REFUSED: [Refused; 11] = [
    (7, (0, 0, FAR + 1), &[(EDGE, 0, 9)], 50, 43),
    (1, (0, 0, FAR + 1), &[(EDGE, 0, 9)], 40, 40),
    (1, (FAR + 1, 1, 0), &[(EDGE, 0, 9)], 40, 40),
    (1, (0, 0, 5), &[(EDGE, 0, 9)], 55, 55),
    (1, (6, 2, 2), &[(EDGE, 0, 9)], 55, 55),
    (1, (1, 1, FAR), &[(EDGE, 0, 9)], 51, 51),
    (1, (2, 1, FAR), &[(EDGE, 0, 9)], 41, 41),
    (1, (2, 1, FAR), &[(0, 0, 4)], 42, 42),
    (1, (2, 1, FAR), &[(0, 0, 3)], 54, 54),
    (1, (2, 1, FAR), &[], 54, 54),
    (1, (2, u64::MAX, FAR), &[], 49, 49),
];

#[test]
fn refused_in_order(rt: HostRuntime) {
    let alloc = rt.alloc();
    let mut document = branched(&rt, alloc, u64::MAX - 4);
    for case in &REFUSED {
        check_refused(&rt, alloc, &mut document, case);
    }
}

// The marks come directly before the revision.
#[test]
fn marks_before_the_revision(rt: HostRuntime) {
    let alloc = rt.alloc();
    let mut document = opening(&rt, alloc, u64::MAX - 2);
    apply(&rt, &mut document, &repeat(&rt, alloc, 0, (1, 1, FAR), &[]));
    apply(&rt, &mut document, &mark_on(0, 8192));
    check_number(&rt, &mut document, &mark_on(0, 8193), 54);
    check_number(&rt, &mut document, &mark_on(0, 8192), 49);
    check_number(&rt, &mut document, &moved(1, 8193), 54);
    check_number(&rt, &mut document, &moved(1, 8192), 49);
    check_number(&rt, &mut document, &fork(0, 8193), 54);
    check_number(&rt, &mut document, &fork(0, 8192), 49);
    check_number(&rt, &mut document, &Edit::RemoveBookmark { id: 1 }, 49);
}

/// When something acts, how far it is asked, and at which generations it does up to there.
const GENERATIONS: &[(Acts, u64, &[u64])] = &[
    (Acts::Once { generation: 5 }, 5, &[5]),
    (Acts::Once { generation: 5 }, 4, &[]),
    (Acts::Once { generation: 0 }, 0, &[0]),
    (
        Acts::Every {
            first: 2,
            every: 2,
            last: 6,
        },
        FAR,
        &[2, 4, 6],
    ),
    (
        Acts::Every {
            first: 2,
            every: 2,
            last: 7,
        },
        7,
        &[2, 4, 6],
    ),
    (
        Acts::Every {
            first: 2,
            every: 2,
            last: 7,
        },
        5,
        &[2, 4],
    ),
    (
        Acts::Every {
            first: 2,
            every: 2,
            last: 7,
        },
        1,
        &[],
    ),
    (
        Acts::Every {
            first: 0,
            every: 1,
            last: FAR,
        },
        3,
        &[0, 1, 2, 3],
    ),
    (
        Acts::Every {
            first: 7,
            every: FAR,
            last: FAR,
        },
        FAR,
        &[7],
    ),
    (
        Acts::Every {
            first: 7,
            every: u64::MAX,
            last: FAR,
        },
        u64::MAX,
        &[7],
    ),
];

fn same_generations(rt: &impl Abort, acts: Acts, far: u64, wanted: &[u64]) {
    let mut count = 0;
    for generation in acts.generations_to(far) {
        assert!(rt; count < wanted.len());
        assert!(rt; generation == wanted[count]);
        count += 1;
    }
    assert!(rt; count == wanted.len());
}

#[test]
fn acting_generations_come_one_after_another(rt: std::rt::HostRuntime) {
    for row in GENERATIONS {
        same_generations(&rt, row.0, row.1, row.2);
    }
}
