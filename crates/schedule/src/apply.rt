//! How an edit changes a document.
ghost use Rattle.std.specs.Prelude.{◌≡◌, ◌⊎◌, ◌==◌, IfOk, IfErr, IfSome, OnErr, position};
ghost use Rattle.schedule.specs.Ids.{IdsRise, intervention_id, bookmark_id, branch_id};
ghost use Rattle.schedule.specs.Ids.{changed_at, without};
ghost use Rattle.std.specs.Arc.{arc_value};
ghost use Rattle.schedule.specs.Asked.{asked_of};
ghost use Rattle.schedule.specs.Change.{change, made, refusal, refusals, first_refusal};
ghost use Rattle.schedule.specs.Change.{changed_cells, changed_start, changed_rule};
ghost use Rattle.schedule.specs.Change.{changed_bookmarks, with_intervention};
ghost use Rattle.schedule.specs.Change.{with_changed_intervention, without_intervention, acting};
ghost use Rattle.schedule.specs.Change.{with_moved_bookmark, without_bookmark, marking};
ghost use Rattle.schedule.specs.Change.{for_cells, for_start, for_rule, for_bookmark};
ghost use Rattle.schedule.specs.Change.{for_intervention, for_changed_intervention};
ghost use Rattle.schedule.specs.Change.{for_removed_intervention};
ghost use Rattle.schedule.specs.Change.{for_moved_bookmark, for_removed_bookmark};
ghost use Rattle.schedule.specs.Change.{for_branch, for_removed_branch};
ghost use Rattle.schedule.specs.Change.{with_branch, without_branch};

use crate::acts::Acts;
use crate::branch::Branch;
use crate::document::{Bookmark, Document, Intervention};
use crate::edit::{Edit, Edited};
use crate::fault::EditFault;
use basics::Listing;
use bookmarks::View;
use plane_core::{CellSet, Next, Plane};
use rule_tree::Rule;
use std::alloc::AllocError;
use std::sync::Arc;

impl Document {
    /// Makes the change that the edit asks for, or refuses it by its first refusal and changes
    /// nothing. NoMemory comes only where memory ran out, and after all other refusals.
    pub fn apply(&mut self, edit: &Edit) -> Result<Edited, EditFault>
        ensures ok { IfOk result
            (λ edited. change self.old (asked_of edit.now) ≡ Ok (made self.new edited)) }
        ensures refused { IfErr result (λ fault.
            (fault ≡ EditFault.NoMemory) ⊎ (change self.old (asked_of edit.now) ≡ Err fault)) }
        ensures first { IfSome (refusal self.old (asked_of edit.now))
            (λ fault. result ≡ Err fault) }
        ensures unchanged { OnErr result (self.new ≡ self.old) }
    {
        self.check(edit)?;
        Ok(self.make(edit)?)
    }

    /// Makes the change of an edit that fits, as `check` tells. The only refusal that is left is
    /// memory running out, and then nothing changes.
    pub fn make(&mut self, edit: &Edit) -> Result<Edited, AllocError>
        requires { first_refusal (refusals self.old (asked_of edit.now)) ≡ None }
        ensures ok { IfOk result
            (λ edited. change self.old (asked_of edit.now) ≡ Ok (made self.new edited)) }
        ensures unchanged { OnErr result (self.new ≡ self.old) }
    {
        match edit {
            Edit::Insert {
                branch,
                acts,
                cells,
            } => self.insert_intervention(*branch, *acts, cells),
            Edit::Change { id, acts, cells } => self.change_intervention(*id, *acts, cells),
            Edit::RemoveIntervention { id } => Ok(self.remove_intervention(*id)),
            Edit::SetCells { cells } => self.set_cells(cells.as_slice()),
            Edit::ReplaceStart(start) => self.replace_start(start),
            Edit::ReplaceRule(rule) => self.replace_rule(rule),
            Edit::AddBookmark {
                branch,
                generation,
                view,
            } => self.add_bookmark(*branch, *generation, *view),
            Edit::MoveBookmark { id, generation } => Ok(self.move_bookmark(*id, *generation)),
            Edit::RemoveBookmark { id } => Ok(self.remove_bookmark(*id)),
            Edit::AddBranch { parent, generation } => self.add_branch(*parent, *generation),
            Edit::RemoveBranch { branch } => Ok(self.remove_branch(*branch)),
        }
    }

    // Adds an intervention to a branch.
    fn insert_intervention(
        &mut self,
        branch: u64,
        acts: Acts,
        cells: &Listing<CellSet>,
    ) -> Result<Edited, AllocError>
        requires { first_refusal (for_intervention self.old branch acts cells.now) ≡ None }
        ensures ok { IfOk result (λ edited.
            with_intervention self.old branch acts cells.now ≡ made self.new edited) }
        ensures unchanged { OnErr result (self.new ≡ self.old) }
    {
        let id = self.last_intervention + 1;
        let cells = cells.copy(self.alloc)?;
        self.interventions.push(Intervention {
            id,
            branch,
            acts,
            cells,
        })?;
        self.last_intervention = id;
        self.revision += 1;
        Ok(Edited {
            revision: self.revision,
            id: Some(id),
        })
    }

    // Makes the intervention of an id act then, with these cells.
    fn change_intervention(
        &mut self,
        id: u64,
        acts: Acts,
        cells: &Listing<CellSet>,
    ) -> Result<Edited, AllocError>
        requires { first_refusal (for_changed_intervention self.old id acts cells.now) ≡ None }
        ensures ok { IfOk result (λ edited.
            with_changed_intervention self.old id acts cells.now ≡ made self.new edited) }
        ensures unchanged { OnErr result (self.new ≡ self.old) }
    {
        let cells = cells.copy(self.alloc)?;
        change_in(&mut self.interventions, id, acts, cells);
        self.revision += 1;
        Ok(Edited {
            revision: self.revision,
            id: None,
        })
    }

    // Removes the intervention of an id.
    fn remove_intervention(&mut self, id: u64) -> Edited
        requires { first_refusal (for_removed_intervention self.old id) ≡ None }
        ensures { without_intervention self.old id ≡ made self.new result }
    {
        remove_intervention_in(&mut self.interventions, id);
        self.revision += 1;
        Edited {
            revision: self.revision,
            id: None,
        }
    }

    // Sets cells of the start.
    fn set_cells(&mut self, cells: &[CellSet]) -> Result<Edited, AllocError>
        requires { first_refusal (for_cells self.old cells.now) ≡ None }
        ensures ok { IfOk result
            (λ edited. changed_cells self.old cells.now ≡ made self.new edited) }
        ensures unchanged { OnErr result (self.new ≡ self.old) }
    {
        let start = Arc::new(self.alloc, self.start.lay(cells)?)?;
        self.start = start;
        self.revision += 1;
        Ok(Edited {
            revision: self.revision,
            id: None,
        })
    }

    // Takes another start.
    fn replace_start(&mut self, start: &Arc<Plane>) -> Result<Edited, AllocError>
        requires { first_refusal (for_start self.old (arc_value start.now)) ≡ None }
        ensures ok { IfOk result
            (λ edited. changed_start self.old (arc_value start.now) ≡ made self.new edited) }
        ensures unchanged { OnErr result (self.new ≡ self.old) }
    {
        // The rule has at least 2 states.
        let _states = self.rule.states();
        let shared = Arc::try_clone(start)?;
        self.start = shared;
        self.revision += 1;
        Ok(Edited {
            revision: self.revision,
            id: None,
        })
    }

    // Takes another rule.
    fn replace_rule(&mut self, rule: &Arc<Rule>) -> Result<Edited, AllocError>
        requires { first_refusal (for_rule self.old (arc_value rule.now)) ≡ None }
        ensures ok { IfOk result
            (λ edited. changed_rule self.old (arc_value rule.now) ≡ made self.new edited) }
        ensures unchanged { OnErr result (self.new ≡ self.old) }
    {
        // It has 2 to 256 states.
        let _states = rule.states();
        let rule = Arc::try_clone(rule)?;
        self.rule = rule;
        self.revision += 1;
        Ok(Edited {
            revision: self.revision,
            id: None,
        })
    }

    // Adds a bookmark to a branch.
    fn add_bookmark(
        &mut self,
        branch: u64,
        generation: u64,
        view: View,
    ) -> Result<Edited, AllocError>
        requires { first_refusal (for_bookmark self.old branch generation view) ≡ None }
        ensures ok { IfOk result
            (λ edited. changed_bookmarks self.old branch generation view ≡ made self.new edited) }
        ensures unchanged { OnErr result (self.new ≡ self.old) }
    {
        let id = self.last_bookmark + 1;
        self.bookmarks.push(Bookmark {
            id,
            branch,
            generation,
            view,
        })?;
        self.last_bookmark = id;
        self.revision += 1;
        Ok(Edited {
            revision: self.revision,
            id: Some(id),
        })
    }

    // Moves the bookmark of an id to another generation.
    fn move_bookmark(&mut self, id: u64, generation: u64) -> Edited
        requires { first_refusal (for_moved_bookmark self.old id generation) ≡ None }
        ensures { with_moved_bookmark self.old id generation ≡ made self.new result }
    {
        move_in(&mut self.bookmarks, id, generation);
        self.revision += 1;
        Edited {
            revision: self.revision,
            id: None,
        }
    }

    // Removes the bookmark of an id.
    fn remove_bookmark(&mut self, id: u64) -> Edited
        requires { first_refusal (for_removed_bookmark self.old id) ≡ None }
        ensures { without_bookmark self.old id ≡ made self.new result }
    {
        remove_bookmark_in(&mut self.bookmarks, id);
        self.revision += 1;
        Edited {
            revision: self.revision,
            id: None,
        }
    }

    // Adds a branch that leaves a parent.
    fn add_branch(&mut self, parent: u64, generation: u64) -> Result<Edited, AllocError>
        requires { first_refusal (for_branch self.old parent generation) ≡ None }
        ensures ok { IfOk result
            (λ edited. with_branch self.old parent generation ≡ made self.new edited) }
        ensures unchanged { OnErr result (self.new ≡ self.old) }
    {
        let id = self.last_branch + 1;
        self.branches.push(Branch {
            id,
            parent,
            fork: generation,
        })?;
        self.last_branch = id;
        self.revision += 1;
        Ok(Edited {
            revision: self.revision,
            id: Some(id),
        })
    }

    // Removes a branch.
    fn remove_branch(&mut self, branch: u64) -> Edited
        requires { first_refusal (for_removed_branch self.old branch) ≡ None }
        ensures { without_branch self.old branch ≡ made self.new result }
    {
        remove_branch_in(&mut self.branches, branch);
        self.revision += 1;
        Edited {
            revision: self.revision,
            id: None,
        }
    }
}

// Where the intervention of an id stands, if there is one.
fn intervention_place(interventions: &[Intervention], id: u64) -> Option<usize>
    ensures { result ≡ position (λ i. i.id == id) interventions.now }
{
    interventions
        .iter()
        .position(|intervention| intervention.id == id)
}

// Where the bookmark of an id stands, if there is one.
fn bookmark_place(bookmarks: &[Bookmark], id: u64) -> Option<usize>
    ensures { result ≡ position (λ b. b.id == id) bookmarks.now }
{
    bookmarks.iter().position(|bookmark| bookmark.id == id)
}

// Makes the intervention of an id, if there is one, act then, with these cells.
fn change_in(interventions: &mut [Intervention], id: u64, acts: Acts, cells: Listing<CellSet>)
    requires { IdsRise intervention_id interventions.old }
    ensures { interventions.new
        ≡ changed_at intervention_id (acting acts cells) interventions.old id }
{
    if let Some(place) = intervention_place(interventions, id) {
        let intervention = &mut interventions[place];
        intervention.acts = acts;
        intervention.cells = cells;
    }
}

// Moves the bookmark of an id, if there is one, to another generation.
fn move_in(bookmarks: &mut [Bookmark], id: u64, generation: u64)
    requires { IdsRise bookmark_id bookmarks.old }
    ensures { bookmarks.new ≡ changed_at bookmark_id (marking generation) bookmarks.old id }
{
    if let Some(place) = bookmark_place(bookmarks, id) {
        bookmarks[place].generation = generation;
    }
}

// Takes the intervention of an id out, if there is one.
fn remove_intervention_in(interventions: &mut Vec<Intervention>, id: u64)
    ensures { interventions.new.items ≡ without intervention_id interventions.old.items id }
{
    interventions.retain(|intervention| intervention.id != id);
}

// Takes the bookmark of an id out, if there is one.
fn remove_bookmark_in(bookmarks: &mut Vec<Bookmark>, id: u64)
    ensures { bookmarks.new.items ≡ without bookmark_id bookmarks.old.items id }
{
    bookmarks.retain(|bookmark| bookmark.id != id);
}

// Takes the branch of an id out, if there is one.
fn remove_branch_in(branches: &mut Vec<Branch>, id: u64)
    ensures { branches.new.items ≡ without branch_id branches.old.items id }
{
    branches.retain(|branch| branch.id != id);
}
