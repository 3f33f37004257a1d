//! Books with branches of history.
use super::bench::Act;
use super::{SETTLED, play};
use dependency_book::{Filled, Need};

// Branch 1 leaves branch 0 at 2, where it takes one of the two cells away.
const BRANCHED: &[Act] = &[
    Act::Start,
    Act::Branch {
        parent: 0,
        generation: 2,
    },
    Act::ClearIn {
        branch: 1,
        generation: 2,
        x: 2,
    },
    Act::LookIn {
        branch: 1,
        generation: 4,
    },
    Act::LookIn {
        branch: 0,
        generation: 4,
    },
    Act::Settle(6),
    Act::Shows(1, "1 0 0 0 1 0 0 0 0\n"),
    Act::Shows(2, "1 0 0 0 0 0 0 0 1\n"),
];

const LINES_APART: &[Act] = &[
    // The intervention of branch 1 is none of branch 0.
    Act::Remove(1),
    Act::Waits(1),
    Act::Shows(2, "1 0 0 0 0 0 0 0 1\n"),
    Act::Compute(Need::Step { branch: 1, mark: 4 }),
    Act::Compute(Need::View { id: 1 }),
    Act::Shows(1, "1 0 0 0 0 0 0 0 1\n"),
    // Both lines pass generation 1 of branch 0.
    Act::Clear {
        generation: 1,
        x: 1,
    },
    Act::Waits(1),
    Act::Waits(2),
    Act::Settle(8),
    // The one cell at 1 is four at 4.
    Act::Shows(1, "1 0 1 0 1 0 1 0 0\n"),
    Act::Shows(2, "1 0 1 0 1 0 1 0 0\n"),
];

const FELT_AT_THE_FORK: &[Act] = &[
    // Branch 1 leaves with what branch 0 sets at the fork.
    Act::Clear {
        generation: 2,
        x: -2,
    },
    Act::Waits(1),
    Act::Waits(2),
    Act::Next(Some(Need::Step { branch: 0, mark: 4 })),
    Act::Settle(6),
    Act::Shows(1, "0 0 0 0 0 0 0 0 0\n"),
    Act::Shows(2, "0 0 0 0 1 0 0 0 1\n"),
];

const UNFELT_ABOVE_THE_FORK: &[Act] = &[
    Act::Clear {
        generation: 3,
        x: 1,
    },
    Act::Shows(1, "1 0 0 0 1 0 0 0 0\n"),
    Act::Waits(2),
    Act::Next(Some(Need::Step { branch: 0, mark: 3 })),
];

const TWO_LINES_OUT: &[Act] = &[
    Act::Start,
    Act::Branch {
        parent: 0,
        generation: 2,
    },
    Act::MarkIn {
        branch: 1,
        generation: 6,
    },
    Act::Compute(Need::Step { branch: 0, mark: 2 }),
    // Where a branch begins its parent's pattern arrives.
    Act::Compute(Need::Step { branch: 1, mark: 2 }),
    Act::MarkIn {
        branch: 0,
        generation: 4,
    },
    Act::Issue(Need::Step { branch: 0, mark: 4 }),
    Act::Issue(Need::Step { branch: 1, mark: 6 }),
    Act::Next(None),
    Act::FirstOut(Some(2)),
    Act::Fill(Filled::Row),
    Act::FirstOut(Some(2)),
    Act::FillBefore(Filled::Row),
    Act::FirstOut(None),
    Act::Settle(2),
    Act::Shows(1, "1 4\n"),
    Act::Shows(2, "1 2\n"),
];

const UNBRANCHED: &[Act] = &[
    Act::Branch {
        parent: 0,
        generation: 5,
    },
    // A new branch keeps all, and its parent has a mark more.
    Act::Pending(0),
    Act::Shows(2, "1 2\n"),
    Act::Compute(Need::Step { branch: 0, mark: 5 }),
    Act::Issue(Need::Step { branch: 1, mark: 5 }),
    Act::Unbranch(1),
    Act::IsAsked(true),
    Act::Fill(Filled::NotExpected),
    Act::Next(None),
    Act::Shows(1, "1 2\n"),
    Act::Shows(2, "1 2\n"),
    Act::Shows(3, "1 4\n"),
];

#[test]
fn line_back_to_branch_0_decides_what_an_edit_touches(rt: HostRuntime) {
    play(&rt, rt.alloc(), BRANCHED, LINES_APART);
}

#[test]
fn branch_begins_after_its_parents_interventions(rt: HostRuntime) {
    play(&rt, rt.alloc(), BRANCHED, FELT_AT_THE_FORK);
}

#[test]
fn intervention_above_the_fork_leaves_the_branch(rt: HostRuntime) {
    play(&rt, rt.alloc(), BRANCHED, UNFELT_ABOVE_THE_FORK);
}

#[test]
fn steps_of_two_branches_are_out_at_once(rt: HostRuntime) {
    play(&rt, rt.alloc(), &[], TWO_LINES_OUT);
}

#[test]
fn removed_branch_takes_its_marks_alone(rt: HostRuntime) {
    play(&rt, rt.alloc(), SETTLED, UNBRANCHED);
}
