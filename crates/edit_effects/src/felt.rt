//! From where an edit is felt, and what it leaves.
ghost use Rattle.std.specs.Prelude.{◌≡◌, min};
ghost use Rattle.std.specs.Option.{option_map};
ghost use Rattle.schedule.specs.Asked.{asked_of};
ghost use Rattle.desk_events.specs.Felt.{added, begins_anew, felt_from, first_touched};
ghost use Rattle.desk_events.specs.Felt.{intervention_at, moved, removed, touched_by};
ghost use Rattle.desk_events.specs.Kept.{keeps_arrival, leaves_after};

use desk_events::{Mark, Touched};
use schedule::{Acts, Document, Edit, Intervention};

// What an edit that adds an intervention touches.
fn added(branch: u64, acts: Acts) -> Touched
    ensures { result ≡ added branch acts }
{
    Touched {
        branch,
        was: acts,
        is: acts,
    }
}

/// What an edit touches, if it is one of interventions.
pub fn touched_by(document: &Document, edit: &Edit) -> Option<Touched>
    ensures { result ≡ touched_by document.now (asked_of edit.now) }
{
    match edit {
        Edit::Insert { branch, acts, .. } => Some(added(*branch, *acts)),
        Edit::Change { id, acts, .. } => moved(document, *id, *acts),
        Edit::RemoveIntervention { id } => removed(document, *id),
        _ => None,
    }
}

// What is touched where the intervention of an id acts then.
fn moved(document: &Document, id: u64, acts: Acts) -> Option<Touched>
    ensures { result ≡ option_map (moved acts) (intervention_at document.now id) }
{
    let intervention = intervention_at(document, id)?;
    Some(Touched {
        branch: intervention.branch,
        was: intervention.acts,
        is: acts,
    })
}

// What is touched where it is removed.
fn removed(document: &Document, id: u64) -> Option<Touched>
    ensures { result ≡ option_map removed (intervention_at document.now id) }
{
    let intervention = intervention_at(document, id)?;
    Some(added(intervention.branch, intervention.acts))
}

// The first mark at which it acts, before the edit or after it.
fn first(touched: Touched) -> Mark
    ensures { result ≡ first_touched touched }
{
    Mark::at(touched.branch, touched.was.first().min(touched.is.first()))
}

// The intervention of an id.
fn intervention_at(document: &Document, id: u64) -> Option<&Intervention>
    ensures { option_map (λ intervention. intervention.now) result
        ≡ intervention_at document.now id }
{
    document
        .interventions()
        .iter()
        .find(|intervention| intervention.id == id)
}

// Whether an edit takes another start or another rule.
fn begins_anew(edit: &Edit) -> bool
    ensures { result ≡ begins_anew (asked_of edit.now) }
{
    match edit {
        Edit::SetCells { .. } | Edit::ReplaceStart(_) | Edit::ReplaceRule(_) => true,
        _ => false,
    }
}

/// The mark from which an edit may be felt, if it may change any pattern.
pub fn felt_from(document: &Document, edit: &Edit) -> Option<Mark>
    ensures { result ≡ felt_from document.now (asked_of edit.now) }
{
    match touched_by(document, edit) {
        Some(touched) => Some(first(touched)),
        None if begins_anew(edit) => Some(Mark::at(0, 0)),
        None => None,
    }
}

/// Whether an edit that gives the document and is felt from a mark on keeps what arrives at another
/// one.
pub fn keeps_arrival(document: &Document, felt: Option<Mark>, mark: Mark) -> bool
    ensures { result ≡ keeps_arrival document.now.branches felt mark }
{
    match felt {
        None => true,
        Some(from) => !document.is_felt(mark.branch, mark.generation, from.branch, from.generation),
    }
}

/// Whether it leaves what leaves a mark.
pub fn leaves_after(document: &Document, felt: Option<Mark>, mark: Mark) -> bool
    ensures { result ≡ leaves_after document.now.branches felt mark }
{
    match felt {
        Some(from) if from.branch == mark.branch => mark.generation < from.generation,
        _ => keeps_arrival(document, felt, mark),
    }
}
