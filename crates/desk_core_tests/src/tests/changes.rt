//! The edits of tests.
use desk_core::{CellSet, Edit, Listing, Rule, View};
use std::alloc::Global;
use std::process::Abort;
use std::sync::Arc;

/// A cell as a row of a table gives it: x, y and its state.
pub(super) type Row = (i64, i64, u16);

// A cell is 1 next where exactly one of its neighbours is. Two of the eight cases are left to the
// cell's own state.
const X: &[u8] =
    b"@RULE X\n@TABLE\nn_states:2\nneighborhood:oneDimensional\nsymmetries:none\n0,1,0,1\n0,0,1,1\n1,0,0,0\n1,1,1,0\n";

/// An edit.
#[derive(Clone, Copy, Debug)]
pub(super) enum Change {
    /// Takes the rule X.
    Rule,
    /// Sets the cells of the start.
    Set(&'static [Row]),
    /// Inserts an intervention that sets (0, 0) to 1 in what arrives at this generation.
    Insert(u64),
    /// Inserts an intervention that does so at `first + i * every` for each i, up to `last`.
    Repeat { first: u64, every: u64, last: u64 },
    /// Removes the intervention of this id.
    Remove(u64),
    /// Adds a bookmark of counts at this generation of branch 0.
    Mark(u64),
    /// Adds a bookmark of counts at a generation of a branch.
    MarkIn { branch: u64, generation: u64 },
    /// Adds a bookmark of this view at generation 2.
    View(View),
    /// Moves the bookmark of an id.
    Move { id: u64, generation: u64 },
    /// Removes the bookmark of this id.
    Unmark(u64),
    /// Adds a branch that leaves branch 0 at this generation.
    Branch(u64),
}

fn push_cell(rt: &impl Abort, cells: &mut Vec<CellSet>, row: &Row) {
    let cell = CellSet {
        x: row.0,
        y: row.1,
        state: row.2,
    };
    cells.push(cell).expect(rt, "memory");
}

fn cells_set(rt: &impl Abort, alloc: Global, rows: &[Row]) -> Listing<CellSet> {
    let mut cells = Vec::new(alloc);
    for row in rows {
        push_cell(rt, &mut cells, row);
    }
    Listing::from_vec(cells)
}

fn rule_x(rt: &impl Abort, alloc: Global) -> Arc<Rule> {
    let rule = Rule::read(alloc, X).expect(rt, "a rule");
    Arc::new(alloc, rule).expect(rt, "memory")
}

fn counts_at(branch: u64, generation: u64) -> Edit {
    Edit::AddBookmark {
        branch,
        generation,
        view: View::Counts,
    }
}

/// The edit that a test speaks of.
pub(super) fn edit_of(rt: &impl Abort, alloc: Global, change: Change) -> Edit {
    match change {
        Change::Rule => Edit::ReplaceRule(rule_x(rt, alloc)),
        Change::Set(rows) => Edit::SetCells {
            cells: cells_set(rt, alloc, rows),
        },
        Change::Insert(generation) => {
            Edit::insert_intervention(0, generation, cells_set(rt, alloc, &[(0, 0, 1)]))
        }
        Change::Repeat { first, every, last } => {
            Edit::insert_repeat(0, first, every, last, cells_set(rt, alloc, &[(0, 0, 1)]))
        }
        Change::Remove(id) => Edit::RemoveIntervention { id },
        Change::Mark(generation) => counts_at(0, generation),
        Change::MarkIn { branch, generation } => counts_at(branch, generation),
        Change::View(view) => Edit::AddBookmark {
            branch: 0,
            generation: 2,
            view,
        },
        Change::Move { id, generation } => Edit::MoveBookmark { id, generation },
        Change::Unmark(id) => Edit::RemoveBookmark { id },
        Change::Branch(generation) => Edit::AddBranch {
            parent: 0,
            generation,
        },
    }
}
