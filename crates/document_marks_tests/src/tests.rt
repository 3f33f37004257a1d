//! The marks of a document after each of some edits.
use desk_events::Mark;
use document_marks::{marks_at_most_after, marks_of, rank_of};
use schedule::{CellSet, Document, Edit, Listing, View};
use std::alloc::Global;
use std::process::Abort;

/// An edit, by what it names.
#[derive(Clone, Copy, Debug)]
enum Asked {
    Fork { parent: u64, generation: u64 },
    Bookmark { branch: u64, generation: u64 },
    Once { branch: u64, generation: u64 },
    Repeat { branch: u64, times: (u64, u64, u64) },
}

/// An edit, the branches and generations of the marks after it, and for how many there was room.
struct Case {
    asked: Asked,
    marks: &'static [(u64, u64)],
    room: usize,
}

const CASES: &[Case] = &[
    // Nothing is asked for beyond the start, so it isn't reached.
    Case {
        asked: Asked::Once {
            branch: 0,
            generation: 4,
        },
        marks: &[],
        room: 4,
    },
    Case {
        asked: Asked::Bookmark {
            branch: 0,
            generation: 9,
        },
        marks: &[(0, 4), (0, 9)],
        room: 5,
    },
    // Branch 1 leaves branch 0 at 6.
    Case {
        asked: Asked::Fork {
            parent: 0,
            generation: 6,
        },
        marks: &[(0, 4), (0, 6), (0, 9), (1, 6)],
        room: 6,
    },
    Case {
        asked: Asked::Bookmark {
            branch: 1,
            generation: 8,
        },
        marks: &[(0, 4), (0, 6), (0, 9), (1, 6), (1, 8)],
        room: 8,
    },
    // It acts once more at 6, and at 12 it isn't reached.
    Case {
        asked: Asked::Repeat {
            branch: 0,
            times: (0, 3, 12),
        },
        marks: &[(0, 3), (0, 4), (0, 6), (0, 9), (1, 6), (1, 8)],
        room: 8201,
    },
    // A bookmark at the start adds no mark.
    Case {
        asked: Asked::Bookmark {
            branch: 0,
            generation: 0,
        },
        marks: &[(0, 3), (0, 4), (0, 6), (0, 9), (1, 6), (1, 8)],
        room: 8202,
    },
];

fn no_cells(alloc: Global) -> Listing<CellSet> {
    Listing::from_vec(Vec::new(alloc))
}

fn edit_of(alloc: Global, asked: Asked) -> Edit {
    match asked {
        Asked::Fork { parent, generation } => Edit::AddBranch { parent, generation },
        Asked::Bookmark { branch, generation } => Edit::AddBookmark {
            branch,
            generation,
            view: View::Counts,
        },
        Asked::Once { branch, generation } => {
            Edit::insert_intervention(branch, generation, no_cells(alloc))
        }
        Asked::Repeat { branch, times } => {
            Edit::insert_repeat(branch, times.0, times.1, times.2, no_cells(alloc))
        }
    }
}

/// The marks of the document after the edit, which is made.
fn marks_after(rt: &impl Abort, document: &mut Document, alloc: Global, edit: &Edit) -> Vec<Mark> {
    let most = marks_at_most_after(document, edit);
    let room = Vec::with_capacity(alloc, most).expect(rt, "memory");
    document.apply(edit).expect(rt, "an accepted edit");
    marks_of(room, document)
}

fn check_mark(rt: &impl Abort, mark: Mark, wanted: (u64, u64), last: u128) {
    assert!(rt;
        (mark.branch, mark.generation) == wanted,
        "{mark:?}, not {wanted:?}"
    );
    assert!(rt; last < rank_of(mark), "{mark:?} doesn't rise");
}

fn check_case(rt: &impl Abort, document: &mut Document, alloc: Global, case: &Case) {
    let edit = edit_of(alloc, case.asked);
    let most = marks_at_most_after(document, &edit);
    assert!(rt; most == case.room, "{:?}: room for {most}", case.asked);
    let marks = marks_after(rt, document, alloc, &edit);
    assert!(rt;
        marks.len() == case.marks.len(),
        "{:?}: {marks:?}",
        case.asked
    );
    let mut last = 0;
    for (mark, wanted) in marks.iter().zip(case.marks) {
        check_mark(rt, *mark, *wanted, last);
        last = rank_of(*mark);
    }
}

#[test]
fn marks_after_edits(rt: HostRuntime) {
    let mut document = Document::opening(rt.alloc(), 0).expect(&rt, "memory");
    for case in CASES {
        check_case(&rt, &mut document, rt.alloc(), case);
    }
}
