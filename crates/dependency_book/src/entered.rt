//! What is to be computed for a row.
ghost use Rattle.std.specs.Prelude.{◌≡◌, IfOk, Some, IsSome};
ghost use Rattle.std.specs.Arc.{arc_value};
ghost use Rattle.revision_jobs.specs.Value.{CanBeWorked};
ghost use Rattle.dependency_book.specs.BookState.{arrival_known};
ghost use Rattle.dependency_book.specs.Entered.{IsEntryOf, StepsTo};
ghost use Rattle.desk_events.specs.Marks.{ComesBefore};
ghost use Rattle.dependency_book.specs.Needs.{IsLedTo, IsNext};
ghost use Rattle.dependency_book.specs.Right.{IsRightBook};

use crate::book::Book;
use crate::row::Key;
use crate::steps::before_row;
use desk_events::{Mark, Need};
use edit_effects::cells_at;
use ranked_rows::{get, place_in};
use revision_jobs::{Entry, Rendering, Step};
use schedule::{Listing, Next, Plane};
use std::alloc::{AllocError, Global};
use std::sync::Arc;

impl Book<'_> {
    /// What is to be computed for what is needed next: the step to a mark from what arrives at the
    /// mark before it, on which that mark's cells are laid, or the view of a bookmark. The need is
    /// the one that `next_need` answers. Rule and pattern are shared and not copied.
    pub fn entry(&self, need: &Need) -> Result<Entry, AllocError>
        requires { IsNext self.now (Some need.now) }
        ensures entry { IfOk result (λ entry. IsEntryOf self.now need.now entry) }
        ensures workable { IfOk result CanBeWorked }
    {
        match need {
            Need::Step { branch, mark } => {
                Ok(Entry::Step(self.step_to(Mark::at(*branch, *mark))?))
            }
            Need::View { id } => self.view_of(*id),
        }
    }

    /// The step to a mark, from what is known to arrive at the mark before it.
    pub(crate) fn step_to(&self, mark: Mark) -> Result<Step, AllocError>
        requires { IsLedTo self.now mark }
        ensures step { IfOk result (StepsTo self.now mark) }
        ensures right { IsRightBook self.now }
    {
        let before = self.before(mark);
        let interventions = self.document.interventions();
        let cells = cells_at(self.alloc, interventions, before)?;
        Ok(Step {
            rule: Arc::try_clone(self.document.rule())?,
            from: Arc::try_clone(self.arrived(before))?,
            cells,
            gens: mark.generation - before.generation,
        })
    }

    // The mark before a mark.
    fn before(&self, mark: Mark) -> Mark
        requires { IsLedTo self.now mark }
        ensures mark { ComesBefore self.now.plan result mark }
        ensures known { IsSome (arrival_known self.now result) }
    {
        let place = place_in(&self.arrivals, mark.rank());
        before_row(&self.document, &self.arrivals, place)
    }

    // The view of a bookmark.
    fn view_of(&self, id: u64) -> Result<Entry, AllocError>
        requires { IsNext self.now (Some (Need.View id)) }
        ensures entry { IfOk result (λ entry. IsEntryOf self.now (Need.View id) entry) }
        ensures right { IsRightBook self.now }
    {
        let Some(row) = get(&self.texts, u128::from(id)) else {
            unreachable!("a bookmark of the document has a row")
        };
        let bookmark = row.key;
        let mark = Mark::of(&bookmark);
        let rule = self.document.rule();
        let interventions = self.document.interventions();
        let cells = cells_at(self.alloc, interventions, mark)?;
        let name = copied(self.alloc, rule.name())?;
        Ok(Entry::View(Rendering {
            view: bookmark.view,
            from: Arc::try_clone(self.arrived(mark))?,
            cells,
            name,
            states: rule.states(),
            generation: bookmark.generation,
        }))
    }

    // What arrives at a mark, where that is known.
    fn arrived(&self, mark: Mark) -> &Arc<Plane>
        requires { IsSome (arrival_known self.now mark) }
        ensures { arrival_known self.now mark ≡ Some (arc_value result.now) }
    {
        let Some(plane) = self.known_at(mark) else {
            unreachable!("what arrives at the mark is known")
        };
        plane
    }
}

// The same bytes.
fn copied(alloc: Global, bytes: &[u8]) -> Result<Listing<u8>, AllocError>
    ensures { IfOk result (λ copy. copy ≡ bytes.now) }
{
    let mut copy = Vec::new(alloc);
    copy.extend_from_slice(bytes)?;
    Ok(Listing::from_vec(copy))
}
