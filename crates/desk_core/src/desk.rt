//! The desk.
ghost use Rattle.std.specs.Prelude.{◌≡◌, ◌≤◌, IfOk, IfErr, IfSome, OnErr, length};
ghost use Rattle.schedule.specs.Asked.{asked_of};
ghost use Rattle.schedule.specs.Change.{refusal};
ghost use Rattle.dependency_book.specs.BookState.{given_of, opened, pending_of};
ghost use Rattle.dependency_book.specs.Right.{IsRightBook};
ghost use Rattle.dependency_book.specs.Shown.{Shows};
ghost use Rattle.desk_core.specs.Edited.{Makes, Refuses};

use dependency_book::{Book, Shown};
use revision_jobs::Entries;
use schedule::{Document, Edit, EditFault, Edited};
use std::alloc::{AllocError, Global};
use std::marker::Model;
use std::num::NonZeroUsize;

/// A document, what is known of it, and the jobs of a table of entries that are out for the rest.
pub struct Desk<'e> {
    pub(crate) book: Book<'e>,
    pub(crate) entries: &'e Entries,
}

// Written out, as a derived one is proved again in each crate above.
impl Drop for Desk<'_> {
    fn drop(self) {
        let Desk {
            book: _,
            entries: _,
        } = self;
    }
}

impl<'e> Model for Desk<'e> {
    ghost use Rattle.std.specs.Coded.{codes};
    ghost use Rattle.worlds.specs.World.{coded_world};
    ghost use Rattle.dependency_book.specs.BookState.{BookState};

    ghost Value = { BookState };

    ghost coded = { Prim.hlevel (codes, coded_world) };

    ghost view = { λ desk. desk.book };

    ghost use Rattle.desk_core.specs.Desk.{HoldsRight};

    ghost invariant = { λ desk. HoldsRight desk.entries.now desk.book };
}

impl<'e> Desk<'e> {
    /// A desk with the opening document of revision 0, whose jobs are of this table. At most so
    /// many steps are kept with what came of them, and at least one.
    pub fn open(alloc: Global, entries: &'e Entries, facts: u32) -> Result<Desk<'e>, AllocError>
        ensures opened { IfOk result (λ desk. desk ≡ opened entries.now 0) }
        ensures right { IfOk result IsRightBook }
    {
        let facts = NonZeroUsize::new(facts as usize).unwrap_or(NonZeroUsize::MIN);
        Ok(Desk {
            book: Book::open(alloc, entries, 0, facts)?,
            entries,
        })
    }

    /// The present document.
    pub fn document(&self) -> &Document
        ensures { result.now ≡ self.now.plan }
    {
        self.book.document()
    }

    /// Makes the change that the edit asks for and forgets exactly what the edit touches, or
    /// refuses it and changes nothing. An edit of interventions that is seen to change no pattern
    /// touches nothing. What is known by steps that were computed before is entered then.
    pub fn edit(&mut self, edit: &Edit) -> Result<Edited, EditFault>
        ensures ok { IfOk result (Makes (asked_of edit.now) self.old self.new) }
        ensures refused { IfErr result (Refuses (asked_of edit.now) self.old) }
        ensures first { IfSome (refusal self.old.plan (asked_of edit.now))
            (λ fault. result ≡ Err fault) }
        ensures unchanged { OnErr result (self.new ≡ self.old) }
        ensures right { IsRightBook self.new }
    {
        self.book.revise(edit)
    }

    /// What is known of the bookmark of this id: its text, which is what starting over gives for
    /// the present document; nothing; or that there is no such bookmark.
    pub fn shown(&self, id: u64) -> Shown<'_>
        ensures { Shows self.now id result }
    {
        self.book.shown(id)
    }

    /// How many bookmarks are pending.
    pub fn pending(&self) -> u32
        ensures count { result ≡ pending_of self.now }
        ensures bound { result ≤ length self.now.plan.bookmarks }
        ensures right { IsRightBook self.now }
    {
        self.book.pending()
    }

    /// How many numbers of jobs were given.
    pub fn given(&self) -> u32
        ensures { result ≡ given_of self.now }
    {
        self.book.given()
    }
}
