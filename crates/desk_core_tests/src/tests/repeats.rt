//! Desks with an intervention that repeats.
use super::bench::Act;
use super::changes::Change;
use super::{ONE_CELL, play};
use desk_core::{EditFault, Edited};

const FAR: u64 = 1 << 60;

// The cell (0, 0) is set at 2, 5, 8 and so on, as long as a bookmark leads.
const REPEATED: &[Act] = &[
    Act::Edit(Change::Mark(8)),
    Act::Edited(
        Change::Repeat {
            first: 2,
            every: 3,
            last: FAR,
        },
        Edited {
            revision: 4,
            id: Some(1),
        },
    ),
    Act::Settle,
    Act::Shows(1, "1 11\n"),
    // The steps to 2, 5 and 8, and the text.
    Act::Given(4),
    Act::Edit(Change::Move {
        id: 1,
        generation: 11,
    }),
    Act::Settle,
    Act::Shows(1, "1 13\n"),
    // What arrives at 8 was known.
    Act::Given(6),
    Act::Refused(
        Change::Move {
            id: 1,
            generation: FAR,
        },
        EditFault::TooManyMarks,
    ),
    Act::Shows(1, "1 13\n"),
    Act::Edit(Change::Remove(1)),
    Act::Settle,
    Act::Shows(1, "1 8\n"),
    // Four that act once do the same.
    Act::Edit(Change::Insert(2)),
    Act::Edit(Change::Insert(5)),
    Act::Edit(Change::Insert(8)),
    Act::Edit(Change::Insert(11)),
    Act::Settle,
    Act::Shows(1, "1 13\n"),
];

#[test]
fn repeat_acts_up_to_the_bookmark(rt: HostRuntime) {
    play(&rt, rt.alloc(), ONE_CELL, REPEATED);
}
