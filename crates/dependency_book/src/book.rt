//! The book.
ghost use Rattle.std.specs.Prelude.{◌≡◌, ◌≤◌, ◌+◌, IfOk, IfNone, IfSome, length};
ghost use Rattle.std.specs.Arc.{arc_value};
ghost use Rattle.dependency_book.specs.BookState.{NothingOut, arrival_known, opened};
ghost use Rattle.dependency_book.specs.BookState.{pending_of, row_of};
ghost use Rattle.dependency_book.specs.Felt.{IsFoundBy};
ghost use Rattle.dependency_book.specs.Needs.{IsNext, IsNextStep, IsNextView};
ghost use Rattle.dependency_book.specs.Right.{IsRightBook};
ghost use Rattle.dependency_book.specs.Shown.{Shows};
ghost use Rattle.dependency_book.specs.declared.row.RowState.TheVariants.{Empty};

use crate::arrival::ArrivalRow;
use crate::cursor::Cursor;
use crate::refusals::Refusals;
use crate::row::Key;
use crate::shown::Shown;
use crate::steps::first_step;
use crate::texts::{TextRow, first_view, pending_count};
use desk_events::{Mark, Need};
use ranked_rows::get;
use revision_jobs::{Entries, Place};
use schedule::{Document, Plane};
use std::alloc::{AllocError, Global};
use std::marker::Model;
use std::num::NonZeroUsize;
use std::sync::Arc;
use step_facts::Facts;

/// A document, what is known to arrive at its marks, the texts of its bookmarks that are known, the
/// jobs of a table of entries that are out for others, and steps with what came of them.
pub struct Book<'e> {
    pub(crate) entries: &'e Entries,
    pub(crate) document: Document,
    // Where the entry of each number that was given stands.
    pub(crate) issued: Vec<Place>,
    pub(crate) arrivals: Vec<ArrivalRow>,
    pub(crate) texts: Vec<TextRow>,
    // Where the mark of each bookmark stands among the arrivals.
    pub(crate) places: Vec<usize>,
    pub(crate) cursor: Cursor,
    pub(crate) facts: Facts,
    // How often an issue was refused.
    pub(crate) refused: Refusals,
    // How often memory was wanting for keeping a fact or looking for one.
    pub(crate) missed: Refusals,
    pub(crate) alloc: Global,
}

// Written out, as a derived one is proved again in each crate above.
impl Drop for Book<'_> {
    fn drop(self) {
        let Book {
            entries: _,
            document: _,
            issued: _,
            arrivals: _,
            texts: _,
            places: _,
            cursor: _,
            facts: _,
            refused: _,
            missed: _,
            alloc: _,
        } = self;
    }
}

impl<'e> Model for Book<'e> {
    ghost use Rattle.std.specs.Coded.{codes};
    ghost use Rattle.worlds.specs.World.{coded_world};
    ghost use Rattle.dependency_book.specs.BookState.{BookState};

    ghost Value = { BookState };

    ghost coded = { Prim.hlevel (codes, coded_world) };

    ghost use Rattle.dependency_book.specs.Inside.{state_of};
    ghost use Rattle.dependency_book.specs.Cursor.{IsKeptBook};

    ghost view = { state_of };

    ghost invariant = { λ book. IsKeptBook (state_of book) book.places.items book.cursor
        book.issued.items book.facts.list };
}

impl<'e> Book<'e> {
    /// A book of the opening document at a revision, whose jobs are of this table. At most so many
    /// steps are kept with what came of them.
    pub fn open(
        alloc: Global,
        entries: &'e Entries,
        revision: u64,
        facts: NonZeroUsize,
    ) -> Result<Book<'e>, AllocError>
        ensures opened { IfOk result (λ book. book ≡ opened entries.now revision) }
        ensures right { IfOk result IsRightBook }
    {
        Ok(Book {
            entries,
            document: Document::opening(alloc, revision)?,
            issued: Vec::new(alloc),
            arrivals: Vec::new(alloc),
            texts: Vec::new(alloc),
            places: Vec::new(alloc),
            cursor: Cursor::start(),
            facts: Facts::new(alloc, facts),
            refused: Refusals::none(),
            missed: Refusals::none(),
            alloc,
        })
    }

    /// The present document.
    pub fn document(&self) -> &Document
        ensures { result.now ≡ self.now.plan }
    {
        &self.document
    }

    /// What is known of the bookmark of this id: its text, which is what starting over gives for
    /// the present document; nothing; or that there is no such bookmark.
    pub fn shown(&self, id: u64) -> Shown<'_>
        ensures { Shows self.now id result }
    {
        match get(&self.texts, u128::from(id)) {
            Some(row) => match row.state.known() {
                Some(text) => Shown::Current(text.as_slice()),
                None => Shown::Pending,
            },
            None => Shown::NoSuch,
        }
    }

    /// What arrives at a mark, if it is known.
    pub(crate) fn known_at(&self, mark: Mark) -> Option<&Arc<Plane>>
        ensures { IsFoundBy (λ plane. arc_value plane.now) (arrival_known self.now mark) result }
    {
        if mark.is_start() {
            return Some(self.document.start());
        }
        match get(&self.arrivals, mark.rank()) {
            Some(row) => match row.state.known() {
                Some(arrival) => Some(arrival.plane()),
                None => None,
            },
            None => None,
        }
    }

    /// How many bookmarks are pending.
    pub fn pending(&self) -> u32
        ensures count { result ≡ pending_of self.now }
        ensures bound { result ≤ length self.now.plan.bookmarks }
    {
        pending_count(&self.texts) as u32
    }

    /// What has to be computed next, and no job is out for: the view of the bookmark with the least
    /// id whose text isn't known where what arrives at its mark is; or else the step to the first
    /// mark, by branch and then by generation, at which the arrival isn't known where that at
    /// the mark before it is. None where every text is known, and where all that is needed waits
    /// for jobs that are out.
    pub fn next_need(&mut self) -> Option<Need>
        ensures same { self.new ≡ self.old }
        ensures next { IsNext self.new result }
        ensures empty { IfSome result (λ need. row_of self.new need ≡ Empty) }
        ensures settled { IfNone result (NothingOut self.new → pending_of self.new ≡ 0) }
    {
        if let Some(id) = self.next_view() {
            return Some(Need::View { id });
        }
        Some(self.next_step()?.step())
    }

    // The least id of the bookmarks that can be viewed. The search goes on where the last one
    // ended.
    fn next_view(&mut self) -> Option<u64>
        ensures same { self.new ≡ self.old }
        ensures next { IsNextView self.new result }
    {
        match first_view(&self.arrivals, &self.texts, &self.places, self.cursor.views) {
            Some(place) => {
                self.cursor.views = place;
                Some(self.texts[place].key.id)
            }
            None => {
                self.cursor.views = self.texts.len();
                None
            }
        }
    }

    // The first mark to which a step can be made. The search goes on where the last one ended.
    fn next_step(&mut self) -> Option<Mark>
        ensures same { self.new ≡ self.old }
        ensures next { IsNextStep self.new result }
        ensures right { IsRightBook self.new }
    {
        match first_step(&self.document, &self.arrivals, self.cursor.steps) {
            Some(place) => {
                self.cursor.steps = place;
                Some(self.arrivals[place].key)
            }
            None => {
                self.cursor.steps = self.arrivals.len();
                None
            }
        }
    }
}
