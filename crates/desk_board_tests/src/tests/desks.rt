//! Snapshots of desks.
ghost use Rattle.std.specs.Prelude.{◌≡◌};

use super::same;
use desk_board::{ShownRow, Snapshot, snapshot};
use desk_core::{CellSet, Desk, Edit, Entries, InlinePost, Listing, Settling, View, settle};
use std::alloc::Global;
use std::process::Abort;
use std::sync::Wait;

/// More squares than the jobs of these tests keep.
const SQUARES: u32 = 4096;

/// More turns than these desks take.
const TURNS: u32 = 100;

/// A row as it is wanted: the bookmark's id, branch and generation, and its text.
type Row = (u64, u64, u64, &'static [u8]);

/// What the text of a pending bookmark is compared with.
const PENDING: &[u8] = b"pending";

fn edit(rt: &impl Abort, desk: &mut Desk<'_>, edit: &Edit)
    ensures { desk.new.table ≡ desk.old.table }
{
    desk.edit(edit).expect(rt, "an accepted edit");
}

/// Adds a branch that leaves branch 0 at a generation.
fn fork(rt: &impl Abort, desk: &mut Desk<'_>, generation: u64)
    ensures { desk.new.table ≡ desk.old.table }
{
    let branch = Edit::AddBranch {
        parent: 0,
        generation,
    };
    edit(rt, desk, &branch);
}

/// Adds a bookmark of counts at a generation of a branch.
fn mark(rt: &impl Abort, desk: &mut Desk<'_>, branch: u64, generation: u64)
    ensures { desk.new.table ≡ desk.old.table }
{
    let bookmark = Edit::AddBookmark {
        branch,
        generation,
        view: View::Counts,
    };
    edit(rt, desk, &bookmark);
}

/// Sets the cell (0, 0) of the start to 1.
fn set_one(rt: &impl Abort, alloc: Global, desk: &mut Desk<'_>)
    ensures { desk.new.table ≡ desk.old.table }
{
    let mut cells = Vec::new(alloc);
    let cell = CellSet {
        x: 0,
        y: 0,
        state: 1,
    };
    cells.push(cell).expect(rt, "memory");
    let cells = Listing::from_vec(cells);
    edit(rt, desk, &Edit::SetCells { cells });
}

/// Computes all that the desk shows.
fn settle_all<R: Abort + Wait>(rt: &R, alloc: Global, entries: &Entries, desk: &mut Desk<'_>)
    requires { desk.old.table ≡ entries.now }
    ensures { desk.new.table ≡ desk.old.table }
{
    let mut post = InlinePost::new(alloc, entries, SQUARES);
    let settling = settle(rt, desk, &mut post, TURNS);
    same(rt, &settling, &Settling::Settled, &"settle");
}

fn taken(rt: &impl Abort, alloc: Global, desk: &Desk<'_>) -> Snapshot {
    snapshot(alloc, desk).expect(rt, "memory")
}

fn text_of(row: &ShownRow) -> &[u8] {
    match &row.text {
        Some(text) => text.as_slice(),
        None => PENDING,
    }
}

fn check_row(rt: &impl Abort, row: &ShownRow, wanted: &Row) {
    same(rt, &row.bookmark.id, &wanted.0, wanted);
    same(rt, &row.bookmark.branch, &wanted.1, wanted);
    same(rt, &row.bookmark.generation, &wanted.2, wanted);
    same(rt, &text_of(row), &wanted.3, wanted);
}

/// Stops the test where the snapshot has another revision or other rows.
fn check_rows(rt: &impl Abort, snapshot: &Snapshot, revision: u64, rows: &[Row]) {
    same(rt, &snapshot.document().revision(), &revision, &"revision");
    same(rt, &snapshot.rows().len(), &rows.len(), &revision);
    for (row, wanted) in snapshot.rows().iter().zip(rows) {
        check_row(rt, row, wanted);
    }
}

// A snapshot has what the desk showed, and keeps it whatever becomes of the desk.
#[test]
fn snapshots_keep_what_the_desk_showed(rt: HostRuntime) {
    let alloc = rt.alloc();
    let entries = Entries::new(alloc).expect(&rt, "memory");
    let mut desk = Desk::open(alloc, &entries, 1).expect(&rt, "memory");
    let opened = taken(&rt, alloc, &desk);
    mark(&rt, &mut desk, 0, 0);
    let pending = taken(&rt, alloc, &desk);
    settle_all(&rt, alloc, &entries, &mut desk);
    fork(&rt, &mut desk, 2);
    mark(&rt, &mut desk, 1, 3);
    let one_settled = taken(&rt, alloc, &desk);
    set_one(&rt, alloc, &mut desk);
    let edited = taken(&rt, alloc, &desk);
    check_rows(&rt, &opened, 0, &[]);
    check_rows(&rt, &pending, 1, &[(1, 0, 0, PENDING)]);
    let known = (1, 0, 0, b"empty\n".as_slice());
    check_rows(&rt, &one_settled, 3, &[known, (2, 1, 3, PENDING)]);
    check_rows(&rt, &edited, 4, &[(1, 0, 0, PENDING), (2, 1, 3, PENDING)]);
}
