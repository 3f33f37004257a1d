//! The cells that are set at a mark, before an edit and after it, and whether a pattern becomes the
//! same one by both.
ghost use Rattle.std.specs.Prelude.{◌≡◌, ◌↔◌, IfOk, IsTrue, None, Some};
ghost use Rattle.schedule.specs.Asked.{asked_of};
ghost use Rattle.schedule.specs.Change.{changed, first_refusal, refusals};
ghost use Rattle.schedule.specs.Scratch.{cells_at};
ghost use Rattle.desk_events.specs.Felt.{LayAlikeOn, cells_acting_at};
ghost use Rattle.edit_effects.specs.CellsAfter.{cells_after, cells_if_at};
ghost use Rattle.edit_effects.specs.CellsAfter.{inserted_cells, own_cells_after};

use desk_events::Mark;
use schedule::{Acts, CellSet, Document, Edit, Intervention, Listing, Plane};
use std::alloc::{AllocError, Global};

/// The cells that the interventions of a mark set, by rising id.
pub fn cells_at(
    alloc: Global,
    interventions: &[Intervention],
    mark: Mark,
) -> Result<Listing<CellSet>, AllocError>
    ensures { IfOk result (λ cells.
        cells ≡ cells_at interventions.now mark.branch mark.generation) }
{
    let mut cells = Vec::new(alloc);
    for intervention in interventions {
        if intervention.acts_at(mark.branch, mark.generation) {
            cells.extend_from_slice(intervention.cells.as_slice())?;
        }
    }
    Ok(Listing::from_vec(cells))
}

// The cells that interventions set at a mark after an edit, by rising id.
fn cells_after(
    alloc: Global,
    interventions: &[Intervention],
    edit: &Edit,
    mark: Mark,
) -> Result<Listing<CellSet>, AllocError>
    ensures { IfOk result (λ cells.
        cells ≡ cells_after (asked_of edit.now) interventions.now mark) }
{
    let mut cells = Vec::new(alloc);
    for intervention in interventions {
        cells.extend_from_slice(own_cells_after(edit, intervention, mark))?;
    }
    cells.extend_from_slice(inserted_cells(edit, mark))?;
    Ok(Listing::from_vec(cells))
}

// The cells that an intervention of the document before an edit sets at a mark after it.
fn own_cells_after<'a>(edit: &'a Edit, intervention: &'a Intervention, mark: Mark) -> &'a [CellSet]
    ensures { result.now ≡ own_cells_after (asked_of edit.now) intervention.now mark }
{
    match edit {
        Edit::Change { id, acts, cells } if *id == intervention.id => {
            cells_if_at(intervention.branch, *acts, cells, mark)
        }
        Edit::RemoveIntervention { id } if *id == intervention.id => &[],
        _ => cells_if_at(
            intervention.branch,
            intervention.acts,
            &intervention.cells,
            mark,
        ),
    }
}

// The cells that an edit's new intervention, if it inserts one, sets at a mark.
fn inserted_cells(edit: &Edit, mark: Mark) -> &[CellSet]
    ensures { result.now ≡ inserted_cells (asked_of edit.now) mark }
{
    match edit {
        Edit::Insert {
            branch,
            acts,
            cells,
        } => cells_if_at(*branch, *acts, cells, mark),
        _ => &[],
    }
}

// The cells where something acts in a branch at the mark, else none.
fn cells_if_at(branch: u64, acts: Acts, cells: &Listing<CellSet>, mark: Mark) -> &[CellSet]
    ensures { result.now ≡ cells_if_at branch acts cells.now mark }
{
    if branch == mark.branch && acts.acts_at(mark.generation) {
        cells.as_slice()
    } else {
        &[]
    }
}

/// Whether a pattern that arrives at a mark becomes the same one by what acts there before an edit
/// that fits and by what acts there after it.
pub fn lays_alike(
    alloc: Global,
    document: &Document,
    edit: &Edit,
    mark: Mark,
    arrival: &Plane,
) -> Result<bool, AllocError>
    requires { first_refusal (refusals document.now (asked_of edit.now)) ≡ None }
    ensures { IfOk result (λ alike. IsTrue alike ↔ LayAlikeOn (Some arrival.now)
        (cells_acting_at document.now.interventions mark)
        (cells_acting_at (changed document.now (asked_of edit.now)).plan.interventions mark)) }
{
    // A document keeps its limits, so its cells can be laid.
    let _start = document.start();
    let interventions = document.interventions();
    let old = cells_at(alloc, interventions, mark)?;
    let new = cells_after(alloc, interventions, edit, mark)?;
    let before = arrival.lay(old.as_slice())?;
    let after = arrival.lay(new.as_slice())?;
    Ok(before.equals(&after))
}
