//! Books with interventions that repeat.
use super::bench::Act;
use super::{SETTLED, play};
use dependency_book::Need;

const FAR: u64 = 1 << 60;

// At 8 and at 20 what arrives is known, and beyond 20 nothing is asked.
const UNFELT: &[Act] = &[
    Act::Repeat {
        branch: 0,
        times: (8, 12, 20),
        x: 50,
        state: 0,
    },
    Act::Settle(0),
    Act::ChangeRepeat {
        id: 1,
        times: (2, 6, 8),
        x: 50,
        state: 0,
    },
    Act::Settle(0),
    Act::ChangeRepeat {
        id: 1,
        times: (8, 12, FAR),
        x: 51,
        state: 0,
    },
    Act::Settle(0),
    Act::Shows(1, "1 2\n"),
    Act::Shows(2, "1 2\n"),
    Act::Shows(3, "1 4\n"),
    Act::Repeat {
        branch: 0,
        times: (21, 1, FAR),
        x: 0,
        state: 1,
    },
    Act::Settle(0),
    Act::Remove(1),
    Act::Settle(0),
    // What arrives at 14 isn't known.
    Act::Repeat {
        branch: 0,
        times: (8, 6, 20),
        x: 50,
        state: 0,
    },
    Act::Shows(1, "1 2\n"),
    Act::Waits(2),
    Act::Waits(3),
];

// The four cells at 20 are -20, -12, 12 and 20; at 8 they are -8 and 8.
const FELT_LAST: &[Act] = &[
    Act::Repeat {
        branch: 0,
        times: (8, 12, 20),
        x: 12,
        state: 0,
    },
    Act::Shows(1, "1 2\n"),
    Act::Waits(2),
    Act::Waits(3),
    Act::Settle(8),
    Act::Shows(2, "1 2\n"),
    Act::Shows(3, "1 3\n"),
    // It doesn't act at 20 any more.
    Act::ChangeRepeat {
        id: 1,
        times: (8, 12, 19),
        x: 12,
        state: 0,
    },
    Act::Waits(3),
    Act::Settle(8),
    Act::Shows(3, "1 4\n"),
    // From 2 on, where it acted from 8 on.
    Act::ChangeRepeat {
        id: 1,
        times: (2, 6, 8),
        x: 0,
        state: 1,
    },
    Act::Waits(1),
    Act::Waits(2),
    Act::Waits(3),
    Act::Settle(8),
    Act::Shows(1, "1 3\n"),
    Act::Shows(2, "1 7\n"),
    Act::Shows(3, "1 8\n"),
];

// A cell that is set at 2, 4, 6 and so on: up to the bookmark, and as long as it goes on.
const MARKED: &[Act] = &[
    Act::Start,
    Act::Repeat {
        branch: 0,
        times: (2, 2, 100),
        x: 0,
        state: 1,
    },
    Act::Next(None),
    Act::Mark(5),
    Act::Compute(Need::Step { branch: 0, mark: 2 }),
    Act::Compute(Need::Step { branch: 0, mark: 4 }),
    Act::Compute(Need::Step { branch: 0, mark: 5 }),
    Act::Compute(Need::View { id: 1 }),
    Act::Next(None),
    Act::Shows(1, "1 2\n"),
    Act::Move {
        id: 1,
        generation: 6,
    },
    Act::Compute(Need::Step { branch: 0, mark: 6 }),
    Act::Compute(Need::View { id: 1 }),
    Act::Shows(1, "1 5\n"),
    // What arrives at 4 stays.
    Act::ChangeRepeat {
        id: 1,
        times: (4, 2, 4),
        x: 0,
        state: 1,
    },
    Act::Compute(Need::Step { branch: 0, mark: 4 }),
    Act::Compute(Need::Step { branch: 0, mark: 6 }),
    Act::Compute(Need::View { id: 1 }),
    Act::Next(None),
];

// A mark of two interventions and of a bookmark is one.
const MARKED_ONCE: &[Act] = &[
    Act::Start,
    Act::Repeat {
        branch: 0,
        times: (0, 2, 6),
        x: 0,
        state: 1,
    },
    Act::Repeat {
        branch: 0,
        times: (0, 3, 6),
        x: 0,
        state: 1,
    },
    Act::Mark(4),
    Act::Compute(Need::Step { branch: 0, mark: 2 }),
    Act::Compute(Need::Step { branch: 0, mark: 3 }),
    Act::Compute(Need::Step { branch: 0, mark: 4 }),
    Act::Compute(Need::View { id: 1 }),
    Act::Next(None),
];

#[test]
fn repeat_that_changes_no_pattern_keeps_all(rt: HostRuntime) {
    play(&rt, rt.alloc(), SETTLED, UNFELT);
}

#[test]
fn repeat_is_felt_at_each_of_its_generations(rt: HostRuntime) {
    play(&rt, rt.alloc(), SETTLED, FELT_LAST);
}

#[test]
fn marks_of_a_repeat_end_at_the_reach(rt: HostRuntime) {
    play(&rt, rt.alloc(), &[], MARKED);
}

#[test]
fn marks_of_two_repeats_are_merged(rt: HostRuntime) {
    play(&rt, rt.alloc(), &[], MARKED_ONCE);
}
