//! What is done to the desk.
ghost use Rattle.std.specs.Prelude.{◌≡◌};

use desk_board::{Publisher, snapshot};
use desk_core::{CellSet, Desk, Edit, Entries, InlinePost, Listing, Rule, View, settle};
use std::alloc::{AllocError, Global};
use std::sync::{Arc, Wait};

/// The generation at which the bookmark stands in the end.
const GENERATIONS: u64 = 64;

/// The revision after the last edit. The third adds the bookmark, and each later one moves it to
/// the next generation.
pub(crate) const LAST: u64 = GENERATIONS + 3;

/// More turns than a settling takes here.
const TURNS: u32 = 100;

/// More squares than a step keeps here.
const SQUARES: u32 = 4096;

// A cell is 1 next where exactly one of its neighbours is. Where a cell of state 1 has one, and one
// of state 0 has none or two, its own state is left.
const RULE: &[u8] =
    b"@RULE X\n@TABLE\nn_states:2\nneighborhood:oneDimensional\nsymmetries:none\n0,1,0,1\n0,0,1,1\n1,0,0,0\n1,1,1,0\n";

/// Makes the edits one after another, and publishes a snapshot of the settled desk after each.
pub(crate) fn edit_all<R: Wait>(
    rt: &R,
    alloc: Global,
    entries: &Entries,
    desk: &mut Desk<'_>,
    publisher: &mut Publisher<&R>,
) -> anyhow::Result<()>
    requires { desk.old.table ≡ entries.now }
{
    for edit in edits(alloc, rule(alloc)?)? {
        desk.edit(&edit)?;
        settle_all(rt, alloc, entries, desk);
        publisher.publish(snapshot(alloc, desk)?)?;
    }
    Ok(())
}

fn rule(alloc: Global) -> anyhow::Result<Arc<Rule>> {
    Ok(Arc::new(alloc, Rule::read(alloc, RULE)?)?)
}

// The rule, a live cell and a bookmark, and then its way from generation to generation.
fn edits(alloc: Global, rule: Arc<Rule>) -> Result<Vec<Edit>, AllocError> {
    let mut edits = Vec::new(alloc);
    edits.push(Edit::ReplaceRule(rule))?;
    edits.push(Edit::SetCells {
        cells: one_cell(alloc)?,
    })?;
    edits.push(Edit::AddBookmark {
        branch: 0,
        generation: 0,
        view: View::Counts,
    })?;
    for generation in 1..=GENERATIONS {
        edits.push(Edit::MoveBookmark { id: 1, generation })?;
    }
    Ok(edits)
}

fn one_cell(alloc: Global) -> Result<Listing<CellSet>, AllocError> {
    let mut cells = Vec::new(alloc);
    cells.push(CellSet {
        x: 0,
        y: 0,
        state: 1,
    })?;
    Ok(Listing::from_vec(cells))
}

// Computes all that the desk shows.
fn settle_all(rt: &impl Wait, alloc: Global, entries: &Entries, desk: &mut Desk<'_>)
    requires { desk.old.table ≡ entries.now }
    ensures { desk.new.table ≡ desk.old.table }
{
    let mut post = InlinePost::new(alloc, entries, SQUARES);
    settle(rt, desk, &mut post, TURNS);
}
