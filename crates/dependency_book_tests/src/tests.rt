//! Worked books, with what they know and what is out.
mod bench;
mod branches;
mod repeats;

use bench::{Act, Bench};
use dependency_book::{Filled, Need};
use revision_jobs::Entries;
use schedule::{CellSet, Edit, Listing, Rule};
use std::alloc::Global;
use std::fmt::Debug;
use std::process::Abort;
use std::sync::{Arc, Wait};
use step_engine::EvolveFault;

// A cell is 1 next where exactly one of its neighbours is. Two of the eight cases are left to the
// cell's own state.
const X: &[u8] =
    b"@RULE X\n@TABLE\nn_states:2\nneighborhood:oneDimensional\nsymmetries:none\n0,1,0,1\n0,0,1,1\n1,0,0,0\n1,1,1,0\n";

/// Stops the test where what was found isn't what was wanted.
fn same<T: PartialEq + Debug, A: Debug>(rt: &impl Abort, found: &T, wanted: &T, at: &A) {
    assert!(rt; found == wanted, "{at:?}: {found:?}, not {wanted:?}");
}

/// The cell (x, 0), set to a state.
fn cell(x: i64, state: u16) -> CellSet {
    CellSet { x, y: 0, state }
}

/// The one cell.
fn listed(rt: &impl Abort, alloc: Global, set: CellSet) -> Listing<CellSet> {
    let mut cells = Vec::new(alloc);
    cells.push(set).expect(rt, "memory");
    Listing::from_vec(cells)
}

fn rule_x(rt: &impl Abort, alloc: Global) -> Edit {
    let rule = Rule::read(alloc, X).expect(rt, "a rule");
    Edit::ReplaceRule(Arc::new(alloc, rule).expect(rt, "memory"))
}

/// Does these acts, and then those, in a book of the opening document.
fn play<R: Abort + Wait>(rt: &R, alloc: Global, before: &[Act], acts: &[Act]) {
    let entries = Entries::new(alloc).expect(rt, "memory");
    let mut bench = Bench::open(rt, alloc, &entries);
    for act in before {
        bench.act(rt, act);
    }
    for act in acts {
        bench.act(rt, act);
    }
}

// A settled book with counts at 2, 8 and 20. One cell is two after 2 and after 8 generations, and
// four after 16 + 4.
const SETTLED: &[Act] = &[
    Act::Start,
    Act::Mark(2),
    Act::Mark(8),
    Act::Mark(20),
    Act::Settle(6),
    Act::Shows(1, "1 2\n"),
    Act::Shows(2, "1 2\n"),
    Act::Shows(3, "1 4\n"),
];

const OPENED: &[Act] = &[
    Act::Revision(7),
    Act::Next(None),
    Act::Lacks(1),
    Act::Mark(0),
    Act::Compute(Need::View { id: 1 }),
    Act::Shows(1, "empty\n"),
];

// Under the opening rule the step from 4 to 8 is the one from 0 to 4 once more, so what comes of it
// is known as soon as that one is filled.
const KNOWN_AT_ONCE: &[Act] = &[
    Act::Mark(4),
    Act::Mark(8),
    Act::Compute(Need::Step { branch: 0, mark: 4 }),
    Act::Compute(Need::View { id: 1 }),
    Act::Compute(Need::View { id: 2 }),
    Act::Next(None),
    Act::Shows(2, "empty\n"),
];

// So it is where another job came first.
const KNOWN_OF_A_LATER_JOB: &[Act] = &[
    Act::Mark(0),
    Act::Compute(Need::View { id: 1 }),
    Act::Mark(4),
    Act::Mark(8),
    Act::Compute(Need::Step { branch: 0, mark: 4 }),
    Act::Compute(Need::View { id: 2 }),
    Act::Compute(Need::View { id: 3 }),
    Act::Next(None),
];

// The step from 0 to 8, with an intervention at 4 between that is taken back.
const KNOWN_AGAIN: &[Act] = &[
    Act::Start,
    Act::Mark(8),
    Act::Compute(Need::Step { branch: 0, mark: 8 }),
    Act::Compute(Need::View { id: 1 }),
    Act::Insert {
        generation: 4,
        x: 1,
    },
    Act::Next(Some(Need::Step { branch: 0, mark: 4 })),
    Act::Remove(1),
    Act::Compute(Need::View { id: 1 }),
    Act::Next(None),
];

// Its answer comes while no row expects it.
const KNOWN_OF_A_LATE_ANSWER: &[Act] = &[
    Act::Start,
    Act::Mark(8),
    Act::Issue(Need::Step { branch: 0, mark: 8 }),
    Act::Insert {
        generation: 4,
        x: 1,
    },
    Act::Fill(Filled::NotExpected),
    Act::Remove(1),
    Act::Compute(Need::View { id: 1 }),
    Act::Next(None),
];

const VIEWS_BEFORE_STEPS: &[Act] = &[
    Act::Start,
    Act::Mark(2),
    Act::Mark(1),
    Act::Insert {
        generation: 3,
        x: 0,
    },
    Act::Compute(Need::Step { branch: 0, mark: 1 }),
    Act::Compute(Need::View { id: 2 }),
    Act::Compute(Need::Step { branch: 0, mark: 2 }),
    Act::Compute(Need::View { id: 1 }),
    // No bookmark waits for what arrives at the intervention.
    Act::Next(None),
    Act::Shows(1, "1 2\n"),
    Act::Shows(2, "1 2\n"),
];

const INSERTED: &[Act] = &[
    Act::Insert {
        generation: 8,
        x: 1,
    },
    Act::Shows(1, "1 2\n"),
    Act::Waits(2),
    Act::Waits(3),
    Act::Pending(2),
    // What arrives at 8 is still known.
    Act::Compute(Need::View { id: 2 }),
    Act::Compute(Need::Step {
        branch: 0,
        mark: 20,
    }),
    Act::Compute(Need::View { id: 3 }),
    // The cells -8, 1 and 8 at 8 are four each at 20, of which two pairs meet.
    Act::Shows(2, "1 3\n"),
    Act::Shows(3, "1 8\n"),
];

const CHANGED: &[Act] = &[
    Act::Insert {
        generation: 8,
        x: 1,
    },
    Act::Settle(3),
    Act::Change {
        id: 1,
        generation: 20,
        x: 1,
    },
    Act::Shows(1, "1 2\n"),
    Act::Waits(2),
    Act::Waits(3),
    Act::Next(Some(Need::View { id: 2 })),
];

const UNFELT: &[Act] = &[
    // The cell is 0 there.
    Act::Clear {
        generation: 8,
        x: 1,
    },
    Act::Shows(1, "1 2\n"),
    Act::Shows(2, "1 2\n"),
    Act::Shows(3, "1 4\n"),
    Act::Next(None),
    Act::Remove(1),
    Act::Shows(3, "1 4\n"),
    // What arrives at 4 isn't known.
    Act::Clear {
        generation: 4,
        x: 1,
    },
    Act::Shows(1, "1 2\n"),
    Act::Waits(2),
    Act::Waits(3),
    Act::Next(Some(Need::Step { branch: 0, mark: 4 })),
];

const FELT: &[Act] = &[
    Act::Insert {
        generation: 8,
        x: 1,
    },
    Act::Shows(1, "1 2\n"),
    Act::Waits(2),
    Act::Waits(3),
    Act::Next(Some(Need::View { id: 2 })),
];

// The four cells at 20 are -20, -12, 12 and 20.
const FELT_LATER: &[Act] = &[
    Act::Clear {
        generation: 8,
        x: 12,
    },
    Act::Settle(0),
    Act::Shows(1, "1 2\n"),
    Act::Shows(2, "1 2\n"),
    Act::Shows(3, "1 4\n"),
    Act::ChangeClear {
        id: 1,
        generation: 20,
        x: 12,
    },
    Act::Waits(3),
    Act::Settle(8),
    Act::Shows(2, "1 2\n"),
    Act::Shows(3, "1 3\n"),
    // Moved back it is felt at 20 too.
    Act::ChangeClear {
        id: 1,
        generation: 8,
        x: 12,
    },
    Act::Waits(3),
    Act::Settle(8),
    Act::Shows(3, "1 4\n"),
];

// A job that is out across an edit that isn't felt fills its row.
const UNFELT_OUT: &[Act] = &[
    Act::Mark(30),
    Act::Issue(Need::Step {
        branch: 0,
        mark: 30,
    }),
    Act::Clear {
        generation: 8,
        x: 1,
    },
    Act::IsAsked(false),
    Act::Fill(Filled::Row),
    Act::Settle(1),
];

const MOVED: &[Act] = &[
    Act::Insert {
        generation: 8,
        x: 1,
    },
    Act::Settle(3),
    Act::Move {
        id: 1,
        generation: 4,
    },
    Act::Waits(1),
    Act::Pending(1),
    Act::Move {
        id: 1,
        generation: 4,
    },
    Act::Compute(Need::Step { branch: 0, mark: 4 }),
    Act::Compute(Need::View { id: 1 }),
    Act::Shows(1, "1 2\n"),
    Act::Move {
        id: 1,
        generation: 4,
    },
    Act::Shows(1, "1 2\n"),
    Act::Unmark(2),
    Act::Pending(0),
    Act::Lacks(2),
];

// At generation 1 the cells (-1, 0) and (1, 0) are live; with (0, 0) they are three.
const AFTER_INTERVENTIONS: &[Act] = &[
    Act::Mark(1),
    Act::Insert {
        generation: 1,
        x: 0,
    },
    Act::Settle(8),
    Act::Shows(4, "1 3\n"),
    Act::Remove(1),
    Act::Waits(4),
    Act::Settle(8),
    Act::Shows(4, "1 2\n"),
    Act::Shows(1, "1 2\n"),
];

const FILLED_LATE: &[Act] = &[
    Act::Insert {
        generation: 8,
        x: 1,
    },
    Act::Compute(Need::View { id: 2 }),
    Act::Issue(Need::Step {
        branch: 0,
        mark: 20,
    }),
    Act::Next(None),
    Act::FirstOut(Some(7)),
    // A bookmark between leaves what is out.
    Act::Mark(12),
    Act::IsAsked(false),
    Act::FirstOut(Some(7)),
    Act::Fill(Filled::Row),
    Act::FirstOut(None),
    Act::Settle(3),
];

const DROPPED: &[Act] = &[
    Act::Insert {
        generation: 8,
        x: 1,
    },
    Act::Issue(Need::View { id: 2 }),
    Act::IsAsked(false),
    // An intervention before takes what is out.
    Act::Insert {
        generation: 2,
        x: 0,
    },
    Act::FirstOut(None),
    Act::IsAsked(true),
    Act::Fill(Filled::NotExpected),
    Act::Waits(2),
    Act::Settle(8),
];

const FILLED_TWICE: &[Act] = &[
    Act::Mark(0),
    Act::Issue(Need::View { id: 4 }),
    Act::Fill(Filled::Row),
    Act::Fill(Filled::NotExpected),
    Act::Shows(4, "1 1\n"),
];

const STRAYED: &[Act] = &[
    Act::Mark(2),
    Act::Mark(8),
    Act::Issue(Need::View { id: 4 }),
    Act::Stray(Need::View { id: 5 }),
    Act::Fill(Filled::NotExpected),
    Act::FirstOut(Some(6)),
    Act::Waits(4),
    Act::Next(Some(Need::View { id: 5 })),
];

const FORGOTTEN: &[Act] = &[
    Act::Mark(0),
    Act::Issue(Need::View { id: 4 }),
    Act::Forget(true),
    Act::Forget(false),
    Act::Fill(Filled::NotExpected),
    Act::Next(Some(Need::View { id: 4 })),
];

const REMOVED: &[Act] = &[
    Act::Mark(0),
    Act::Issue(Need::View { id: 4 }),
    Act::Unmark(3),
    Act::IsAsked(false),
    Act::Unmark(4),
    Act::IsAsked(true),
];

const ALL_STOPPED: &[Act] = &[
    Act::Mark(0),
    Act::Issue(Need::View { id: 4 }),
    Act::StopAll,
    Act::IsAsked(true),
    // The answer is expected still.
    Act::FirstOut(Some(6)),
    Act::Fill(Filled::Row),
    // A step is stopped as a view is.
    Act::Mark(5),
    Act::Issue(Need::Step { branch: 0, mark: 5 }),
    Act::IsAsked(false),
    Act::StopAll,
    Act::IsAsked(true),
    Act::FirstOut(Some(7)),
    Act::Fill(Filled::Row),
];

const NUMBERED: &[Act] = &[
    Act::Given(6),
    Act::FirstOut(None),
    Act::Mark(2),
    Act::Mark(5),
    Act::Issue(Need::View { id: 4 }),
    Act::Issue(Need::Step { branch: 0, mark: 5 }),
    Act::Given(8),
    Act::FirstOut(Some(6)),
    Act::Fill(Filled::Row),
    Act::FirstOut(Some(6)),
    Act::Pending(2),
    Act::Compute(Need::View { id: 5 }),
    Act::Pending(1),
    Act::Next(None),
];

const STOPPED: &[Act] = &[
    Act::Mark(5),
    Act::Stop(Need::Step { branch: 0, mark: 5 }),
    Act::Next(None),
    Act::Fill(Filled::Released(EvolveFault::Stopped)),
    Act::FirstOut(None),
    Act::Next(Some(Need::Step { branch: 0, mark: 5 })),
];

#[test]
fn opens(rt: HostRuntime) {
    play(&rt, rt.alloc(), &[], OPENED);
}

#[test]
fn step_that_was_computed_is_known_at_once(rt: HostRuntime) {
    let alloc = rt.alloc();
    play(&rt, alloc, &[], KNOWN_AT_ONCE);
    play(&rt, alloc, &[], KNOWN_OF_A_LATER_JOB);
}

#[test]
fn step_that_was_computed_is_known_again_after_an_edit(rt: HostRuntime) {
    let alloc = rt.alloc();
    play(&rt, alloc, &[], KNOWN_AGAIN);
    play(&rt, alloc, &[], KNOWN_OF_A_LATE_ANSWER);
}

#[test]
fn views_come_before_steps(rt: HostRuntime) {
    play(&rt, rt.alloc(), &[], VIEWS_BEFORE_STEPS);
}

#[test]
fn inserted_intervention_touches_what_is_later(rt: HostRuntime) {
    play(&rt, rt.alloc(), SETTLED, INSERTED);
}

#[test]
fn changed_intervention_touches_from_the_lesser_generation(rt: HostRuntime) {
    play(&rt, rt.alloc(), SETTLED, CHANGED);
}

#[test]
fn intervention_that_changes_no_pattern_keeps_all(rt: HostRuntime) {
    play(&rt, rt.alloc(), SETTLED, UNFELT);
}

#[test]
fn intervention_that_changes_a_pattern_is_felt(rt: HostRuntime) {
    play(&rt, rt.alloc(), SETTLED, FELT);
}

#[test]
fn moved_intervention_is_felt_at_either_generation(rt: HostRuntime) {
    play(&rt, rt.alloc(), SETTLED, FELT_LATER);
}

#[test]
fn job_stays_out_across_an_edit_that_changes_no_pattern(rt: HostRuntime) {
    play(&rt, rt.alloc(), SETTLED, UNFELT_OUT);
}

#[test]
fn moved_bookmark_alone_is_pending(rt: HostRuntime) {
    play(&rt, rt.alloc(), SETTLED, MOVED);
}

#[test]
fn bookmark_shows_after_its_interventions(rt: HostRuntime) {
    play(&rt, rt.alloc(), SETTLED, AFTER_INTERVENTIONS);
}

#[test]
fn answer_fills_across_an_added_bookmark(rt: HostRuntime) {
    play(&rt, rt.alloc(), SETTLED, FILLED_LATE);
}

#[test]
fn earlier_intervention_drops_what_is_out(rt: HostRuntime) {
    play(&rt, rt.alloc(), SETTLED, DROPPED);
}

#[test]
fn second_answer_is_not_expected(rt: HostRuntime) {
    play(&rt, rt.alloc(), SETTLED, FILLED_TWICE);
}

#[test]
fn answer_from_another_place_is_not_expected(rt: HostRuntime) {
    play(&rt, rt.alloc(), SETTLED, STRAYED);
}

#[test]
fn job_is_forgotten_once(rt: HostRuntime) {
    play(&rt, rt.alloc(), SETTLED, FORGOTTEN);
}

#[test]
fn removed_bookmark_asks_its_worker_to_stop(rt: HostRuntime) {
    play(&rt, rt.alloc(), SETTLED, REMOVED);
}

#[test]
fn whoever_works_is_asked_to_stop(rt: HostRuntime) {
    play(&rt, rt.alloc(), SETTLED, ALL_STOPPED);
}

#[test]
fn numbers_rise_and_the_first_out_is_the_least(rt: HostRuntime) {
    play(&rt, rt.alloc(), SETTLED, NUMBERED);
}

#[test]
fn stopped_job_is_released(rt: HostRuntime) {
    play(&rt, rt.alloc(), SETTLED, STOPPED);
}
