//! Worked edits, with what they answer.
mod branches;
mod generations_and_cells;
mod interventions;
mod marks;
mod repeats;
mod rules;
mod starts;

use schedule::{CellSet, Document, Edit, EditFault, Edited, Listing, Next, Refusal, Rule, View};
use std::alloc::Global;
use std::fmt::Debug;
use std::process::Abort;
use std::sync::Arc;
use test_planes::{Row, plane_of, sets_of};

/// A window by its left column, its top row, its width and its height.
type Window = (i64, i64, u32, u32);

const FAR: u64 = 1 << 60;

const EDGE: i64 = 1 << 60;

const LEAST: i64 = -(1 << 61);

const GREATEST: i64 = (1 << 61) - 1;

const TWO_STATES: &[u8] =
    b"@RULE Two\n@TABLE\nn_states:2\nneighborhood:oneDimensional\nsymmetries:none\n0,1,0,1\n";

const THREE_STATES: &[u8] =
    b"@RULE Three\n@TABLE\nn_states:3\nneighborhood:oneDimensional\nsymmetries:none\n0,1,0,2\n";

const FOUR_STATES: &[u8] =
    b"@RULE Four\n@TABLE\nn_states:4\nneighborhood:oneDimensional\nsymmetries:none\n0,1,0,3\n";

/// Stops the test where what was found isn't what was wanted.
fn same<T: PartialEq + Debug, A: Debug>(rt: &impl Abort, found: &T, wanted: &T, at: &A) {
    assert!(rt; found == wanted, "{at:?}: {found:?}, not {wanted:?}");
}

fn cells_set(rt: &impl Abort, alloc: Global, rows: &[Row]) -> Listing<CellSet> {
    Listing::from_vec(sets_of(alloc, rows).expect(rt, "memory"))
}

/// The edit that sets the cells of the rows.
fn set(rt: &impl Abort, alloc: Global, rows: &[Row]) -> Edit {
    Edit::SetCells {
        cells: cells_set(rt, alloc, rows),
    }
}

/// The edit that sets the cell (0, 0) so many times, and then that of the row.
fn set_many(rt: &impl Abort, alloc: Global, count: usize, last: Row) -> Edit {
    let mut rows = Vec::from_elem(alloc, (0, 0, 1), count).expect(rt, "memory");
    rows.push(last).expect(rt, "memory");
    set(rt, alloc, &rows)
}

/// The edit that takes the pattern of the rows as the start.
fn start_of(rt: &impl Abort, alloc: Global, rows: &[Row]) -> Edit {
    let plane = plane_of(alloc, rows).expect(rt, "memory, and rows within the plane");
    Edit::ReplaceStart(Arc::new(alloc, plane).expect(rt, "memory"))
}

fn mark(generation: u64) -> Edit {
    mark_on(0, generation)
}

fn mark_on(branch: u64, generation: u64) -> Edit {
    Edit::AddBookmark {
        branch,
        generation,
        view: View::Counts,
    }
}

fn mark_window(generation: u64, window: &Window) -> Edit {
    mark_window_on(0, generation, window)
}

fn mark_window_on(branch: u64, generation: u64, window: &Window) -> Edit {
    Edit::AddBookmark {
        branch,
        generation,
        view: View::Window {
            left: window.0,
            top: window.1,
            width: window.2,
            height: window.3,
        },
    }
}

fn rule_of(rt: &impl Abort, alloc: Global, text: &[u8]) -> Rule {
    Rule::read(alloc, text).expect(rt, "a rule")
}

fn replace(rt: &impl Abort, alloc: Global, text: &[u8]) -> Edit {
    let rule = rule_of(rt, alloc, text);
    Edit::ReplaceRule(Arc::new(alloc, rule).expect(rt, "memory"))
}

fn opening(rt: &impl Abort, alloc: Global, revision: u64) -> Document {
    Document::opening(alloc, revision).expect(rt, "memory")
}

/// What an edit answers that is accepted and makes nothing with an id.
fn plain(revision: u64) -> Edited {
    Edited { revision, id: None }
}

fn apply(rt: &impl Abort, document: &mut Document, edit: &Edit) -> Edited {
    document.apply(edit).expect(rt, "an accepted edit")
}

/// Stops the test where an accepted edit isn't followed by its revision.
fn check_accepted(
    rt: &impl Abort,
    checked: &Result<(), EditFault>,
    before: u64,
    edited: &Edited,
    after: u64,
) {
    same(rt, checked, &Ok(()), &before);
    same(rt, &before.checked_add(1), &Some(edited.revision), &before);
    same(rt, &after, &edited.revision, &before);
}

/// Stops the test where a refusal isn't the checked one, or changes the revision.
fn check_refused(
    rt: &impl Abort,
    checked: &Result<(), EditFault>,
    before: u64,
    fault: EditFault,
    after: u64,
) {
    assert!(rt; fault != EditFault::NoMemory, "memory");
    same(rt, checked, &Err(fault), &before);
    same(rt, &after, &before, &before);
}

/// The number of the refusal, or 0 where the edit is accepted. Stops the test where `check` and
/// `apply` differ, or where the document doesn't have its revision afterwards.
fn number(rt: &impl Abort, document: &mut Document, edit: &Edit) -> u8 {
    let checked = document.check(edit);
    let before = document.revision();
    let applied = document.apply(edit);
    let after = document.revision();
    match applied {
        Ok(edited) => {
            check_accepted(rt, &checked, before, &edited, after);
            0
        }
        Err(fault) => {
            check_refused(rt, &checked, before, fault, after);
            fault.reason().number
        }
    }
}

/// Stops the test where an edit of the opening document isn't refused by this number.
fn check_edit<A: Debug>(
    rt: &impl Abort,
    alloc: Global,
    revision: u64,
    edit: &Edit,
    wanted: u8,
    at: &A,
) {
    let mut document = opening(rt, alloc, revision);
    same(rt, &number(rt, &mut document, edit), &wanted, at);
}

fn check_opening(rt: &impl Abort, alloc: Global, revision: u64) {
    let document = opening(rt, alloc, revision);
    same(rt, &document.rule().name(), &b"still".as_slice(), &revision);
    same(rt, &document.rule().states(), &2, &revision);
    same(rt, &document.start().population(), &0, &revision);
    same(rt, &document.interventions().len(), &0, &revision);
    same(rt, &document.bookmarks().len(), &0, &revision);
    same(rt, &document.branches().len(), &0, &revision);
    same(rt, &document.revision(), &revision, &revision);
}

#[test]
fn opens(rt: HostRuntime) {
    check_opening(&rt, rt.alloc(), 0);
    check_opening(&rt, rt.alloc(), 7);
    check_opening(&rt, rt.alloc(), u64::MAX);
}

/// Cells of an edit, and the number of its refusal.
struct Cells {
    rows: &'static [Row],
    wanted: u8,
}
