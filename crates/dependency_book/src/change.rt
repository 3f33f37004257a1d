//! How an edit changes a book.
ghost use Rattle.std.specs.Prelude.{◌≡◌, ◌⊎◌, ◌↔◌, IfOk, IfErr, IfSome, IsTrue, None, OnErr, OnOk};
ghost use Rattle.schedule.specs.Asked.{asked_of};
ghost use Rattle.schedule.specs.Change.{change, first_refusal, made, refusal, refusals};
ghost use Rattle.desk_events.specs.Event.{MayBeAsked};
ghost use Rattle.dependency_book.specs.Called.{IsEdit};
ghost use Rattle.dependency_book.specs.Felt.{BookFeels, BookIsUnfelt};
ghost use Rattle.dependency_book.specs.Felt.{BookIsUnfeltAt, BookIsUnfeltWhere};
ghost use Rattle.dependency_book.specs.Kept.{KeepsUnfelt};
ghost use Rattle.dependency_book.specs.Planned.{IsPlanned};
ghost use Rattle.dependency_book.specs.Recalled.{Revises};
ghost use Rattle.dependency_book.specs.Right.{IsRightBook};

use crate::book::Book;
use crate::cursor::Cursor;
use crate::remade::Room;
use desk_events::Mark;
use edit_effects::{felt_from, lays_alike, touched_by};
use schedule::{Acts, Edit, EditFault, Edited, Next};
use std::alloc::AllocError;
use std::mem;

/// The change that an edit asks of a book: what the edit is, from where it is felt, if it changes
/// any pattern, and room for the rows of the document that it gives. By where it is felt all is
/// said of which rows stay. It is found out once, before anything changes, and then committed.
#[derive(Drop)]
pub(crate) struct Change<'a> {
    edit: &'a Edit,
    felt: Option<Mark>,
    room: Room,
}

impl Book<'_> {
    /// Makes the change that the edit asks for and forgets exactly what the edit touches, or
    /// refuses it and changes nothing.
    ///
    /// What an edit keeps is what is known in a row, or the job that is out for it: a row that it
    /// touches knows nothing afterwards and expects nothing, and whoever works a job that was out
    /// for it is asked to stop.
    ///
    /// An edit of interventions of a branch keeps what arrives there at marks up to the first
    /// generation at which what it changes acts, before it or after it, the texts of bookmarks
    /// below that, and all of every branch whose line back to branch 0 doesn't leave the branch at
    /// that generation or later. An edit of bookmarks keeps all but the text of a bookmark that it
    /// moves to another generation, and one of branches keeps all. One of the start or of the rule
    /// keeps nothing.
    ///
    /// An edit of interventions that is seen to change no pattern keeps all: at each generation at
    /// which what it changes acts, before it or after it, as far as the branch reaches, what
    /// arrives is known, and becomes the same pattern by what acted there and by what acts there
    /// now. That is looked at first, and where there is no memory for it the edit is refused.
    ///
    /// Then what is known by steps that were computed before is entered, where nothing is known and
    /// no job is out. Where memory is wanting for a look nothing is found.
    pub fn revise(&mut self, edit: &Edit) -> Result<Edited, EditFault>
        ensures ok { IfOk result (λ edited.
            change self.old.plan (asked_of edit.now) ≡ Ok (made self.new.plan edited)) }
        ensures revises { OnOk result (Revises (asked_of edit.now) self.old self.new) }
        ensures event { OnOk result (IsEdit (asked_of edit.now) self.old self.new) }
        ensures refused { IfErr result (λ fault.
            (fault ≡ EditFault.NoMemory) ⊎ (change self.old.plan (asked_of edit.now) ≡ Err fault)) }
        ensures first { IfSome (refusal self.old.plan (asked_of edit.now))
            (λ fault. result ≡ Err fault) }
        ensures unchanged { OnErr result (self.new ≡ self.old) }
        ensures right { IsRightBook self.new }
    {
        note_rule(edit);
        self.document.check(edit)?;
        let planned = self.plan(edit)?;
        let edited = self.commit(planned)?;
        self.recall_all();
        Ok(edited)
    }

    // The change that an edit asks for that fits.
    fn plan<'a>(&self, edit: &'a Edit) -> Result<Change<'a>, AllocError>
        requires { first_refusal (refusals self.now.plan (asked_of edit.now)) ≡ None }
        ensures { IfOk result (IsPlanned self.now (asked_of edit.now)) }
    {
        let room = Room::beside(self.alloc, &self.document, edit)?;
        let felt = self.felt(edit)?;
        Ok(Change { edit, felt, room })
    }

    // Makes the change, and the rows anew.
    fn commit(&mut self, planned: Change<'_>) -> Result<Edited, AllocError>
        requires { IsPlanned self.old (asked_of planned.edit.now) planned }
        ensures ok { IfOk result (λ edited.
            change self.old.plan (asked_of planned.entry.edit.now) ≡ Ok (made self.new.plan edited)) }
        ensures keeps { OnOk result
            (KeepsUnfelt (asked_of planned.entry.edit.now) self.old self.new) }
        ensures unchanged { OnErr result (self.new ≡ self.old) }
        ensures right { IsRightBook self.new }
    {
        let Change { edit, felt, room } = planned;
        let edited = self.document.make(edit)?;
        let arrivals = mem::replace(&mut self.arrivals, Vec::new(self.alloc));
        let texts = mem::replace(&mut self.texts, Vec::new(self.alloc));
        let rows = room.rows_of(self.entries, &self.document, arrivals, texts, felt);
        self.arrivals = rows.arrivals;
        self.texts = rows.texts;
        self.places = rows.places;
        self.cursor = Cursor::start();
        Ok(edited)
    }

    // The mark from which an edit that fits is felt, if it changes any pattern.
    //
    // An edit of interventions changes none where at each generation at which it changes what
    // acts the pattern that arrives is known, and becomes the same one by what acts there before
    // the edit and by what acts there after it.
    fn felt(&self, edit: &Edit) -> Result<Option<Mark>, AllocError>
        requires { first_refusal (refusals self.now.plan (asked_of edit.now)) ≡ None }
        ensures { IfOk result (BookFeels self.now (asked_of edit.now)) }
    {
        if self.is_unfelt(edit)? {
            return Ok(None);
        }
        Ok(felt_from(&self.document, edit))
    }

    // Whether it is an edit of interventions that is seen to change no pattern.
    fn is_unfelt(&self, edit: &Edit) -> Result<bool, AllocError>
        requires { first_refusal (refusals self.now.plan (asked_of edit.now)) ≡ None }
        ensures { IfOk result (λ unfelt.
            IsTrue unfelt ↔ BookIsUnfelt self.now (asked_of edit.now)) }
    {
        let Some(touched) = touched_by(&self.document, edit) else {
            return Ok(false);
        };
        if !self.is_unfelt_where(edit, touched.branch, touched.was)? {
            return Ok(false);
        }
        if touched.is == touched.was {
            return Ok(true);
        }
        self.is_unfelt_where(edit, touched.branch, touched.is)
    }

    // Whether it is seen to change no pattern where something acts in a branch, as far as the
    // branch reaches.
    fn is_unfelt_where(&self, edit: &Edit, branch: u64, acts: Acts) -> Result<bool, AllocError>
        requires { first_refusal (refusals self.now.plan (asked_of edit.now)) ≡ None }
        ensures { IfOk result (λ unfelt.
            IsTrue unfelt ↔ BookIsUnfeltWhere self.now (asked_of edit.now) branch acts) }
    {
        for generation in acts.generations_to(self.document.reach(branch)) {
            if !self.is_unfelt_at(edit, Mark::at(branch, generation))? {
                return Ok(false);
            }
        }
        Ok(true)
    }

    // Whether what arrives at a mark is known, and becomes the same pattern by what acts there
    // before an edit and after it.
    fn is_unfelt_at(&self, edit: &Edit, mark: Mark) -> Result<bool, AllocError>
        requires { first_refusal (refusals self.now.plan (asked_of edit.now)) ≡ None }
        ensures { IfOk result (λ unfelt.
            IsTrue unfelt ↔ BookIsUnfeltAt self.now (asked_of edit.now) mark) }
    {
        match self.known_at(mark) {
            Some(plane) => lays_alike(self.alloc, &self.document, edit, mark, plane),
            None => Ok(false),
        }
    }
}

// A rule that an edit asks for has 2 to 256 states, as each rule has.
fn note_rule(edit: &Edit)
    ensures { MayBeAsked (asked_of edit.now) }
{
    if let Edit::ReplaceRule(rule) = edit {
        let _states = rule.states();
    }
}
