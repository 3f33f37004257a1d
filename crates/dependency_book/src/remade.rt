//! The rows of a document, made anew.
ghost use Rattle.std.specs.Prelude.{◌≡◌, ◌≤◌, ◌+◌, Bool, IfOk, List, Option, [], length};
ghost use Rattle.std.specs.Prelude.{vec_capacity};
ghost use Rattle.schedule.specs.declared.branch.Branch.{Branch};
ghost use Rattle.desk_events.specs.declared.mark.Mark.{Mark};
ghost use Rattle.dependency_book.specs.Held.{places_of};
ghost use Rattle.dependency_book.specs.Remade.{AreRemade};
ghost use Rattle.schedule.specs.Asked.{asked_of};
ghost use Rattle.dependency_book.specs.Planned.{HasPlaces, HasRoomAfter};
ghost use Rattle.dependency_book.specs.RowState.{OutsAreOf};
ghost use Rattle.dependency_book.specs.Rows.{IsRanked, bookmark_rank};
ghost use Rattle.document_marks.specs.AllMarks.{mark_rank};
ghost use Rattle.document_marks.specs.MostMarks.{marks_at_most};

use crate::arrival::ArrivalRow;
use crate::row::{Key, Row, RowState};
use crate::texts::TextRow;
use desk_events::Mark;
use document_marks::{marks_at_most_after, marks_of};
use edit_effects::{keeps_arrival, leaves_after};
use ranked_rows::{Remakes, place_near, remade};
use revision_jobs::Entries;
use schedule::{Bookmark, Document, Edit};
use std::alloc::{AllocError, Global};
use std::mem;

/// The rows of a document, and where the marks of its bookmarks stand among them.
#[derive(Drop)]
pub(crate) struct Rows {
    pub(crate) arrivals: Vec<ArrivalRow>,
    pub(crate) texts: Vec<TextRow>,
    pub(crate) places: Vec<usize>,
}

/// Room for the rows of a document.
pub(crate) struct Room {
    marks: Vec<Mark>,
    rows: Rows,
}

// Written out, as a derived one is proved again wherever a room is dropped.
impl Drop for Room {
    fn drop(self) {
        let Room { marks: _, rows: _ } = self;
    }
}

impl Room {
    /// Room for the document after an edit, which has at most one more bookmark.
    pub(crate) fn beside(
        alloc: Global,
        document: &Document,
        edit: &Edit,
    ) -> Result<Room, AllocError>
        ensures { IfOk result (HasRoomAfter document.now (asked_of edit.now)) }
    {
        let marks = marks_at_most_after(document, edit);
        let bookmarks = document.bookmarks().len() + 1;
        Ok(Room {
            marks: Vec::with_capacity(alloc, marks)?,
            rows: Rows {
                arrivals: Vec::with_capacity(alloc, marks)?,
                texts: Vec::with_capacity(alloc, bookmarks)?,
                places: Vec::with_capacity(alloc, bookmarks)?,
            },
        })
    }

    /// The rows of a document: what stood in the old row of the same mark or bookmark where it
    /// stays after an edit that gives the document and is felt from a mark on, if it changes any
    /// pattern, else nothing. Whoever works a job of the table that doesn't stay is asked to stop.
    pub(crate) fn rows_of(
        self,
        entries: &Entries,
        document: &Document,
        arrivals: Vec<ArrivalRow>,
        texts: Vec<TextRow>,
        felt: Option<Mark>,
    ) -> Rows
        requires room { HasPlaces self
            (marks_at_most document.now) (length document.now.bookmarks) }
        requires ranked { IsRanked mark_rank arrivals.items × IsRanked bookmark_rank texts.items }
        requires own { OutsAreOf entries.now arrivals.items × OutsAreOf entries.now texts.items }
        ensures { AreRemade document.now arrivals.items texts.items felt result }
    {
        let Room { marks, rows } = self;
        let marks = marks_of(marks, document);
        let bookmarks = document.bookmarks();
        let edit = AfterEdit {
            entries,
            document,
            felt,
        };
        let arrivals = remade(&edit, rows.arrivals, &marks, arrivals);
        let texts = remade(&edit, rows.texts, bookmarks, texts);
        let places = places_of(rows.places, &arrivals, bookmarks);
        Rows {
            arrivals,
            texts,
            places,
        }
    }
}

// Where the marks of bookmarks stand among rows. The places stand in the room, which is empty and
// has a place for each bookmark. A bookmark's mark mostly stands behind the one of the bookmark
// before it.
fn places_of(room: Vec<usize>, arrivals: &[ArrivalRow], bookmarks: &[Bookmark]) -> Vec<usize>
    requires room { room.items ≡ [] × length bookmarks.now ≤ vec_capacity room }
    requires ranked { IsRanked mark_rank arrivals.now }
    ensures { result.items ≡ places_of arrivals.now bookmarks.now }
{
    let mut places = room;
    let mut behind = 0;
    for bookmark in bookmarks {
        let place = place_near(arrivals, Mark::of(bookmark).rank(), behind);
        places.push_reserved(place);
        behind = place.saturating_add(1);
    }
    places
}

// A key of rows, of which an edit keeps some.
trait Keeps: Key {
    ghost stays: { List Branch → Option Mark → Self → Self → Bool };

    /// Whether what stood at the key as it was stays, after an edit that gives the document and is
    /// felt from a mark on, if it changes any pattern.
    fn stays(&self, document: &Document, felt: Option<Mark>, was: &Self) -> bool
        ensures { result ≡ stays document.now.branches felt self.now was.now };
}

impl Keeps for Mark {
    ghost use Rattle.dependency_book.specs.Kept.{mark_stays};

    ghost stays = { mark_stays };

    fn stays(&self, document: &Document, felt: Option<Mark>, _was: &Mark) -> bool {
        keeps_arrival(document, felt, *self)
    }
}

impl Keeps for Bookmark {
    ghost use Rattle.dependency_book.specs.Kept.{bookmark_stays};

    ghost stays = { bookmark_stays };

    fn stays(&self, document: &Document, felt: Option<Mark>, was: &Bookmark) -> bool {
        leaves_after(document, felt, Mark::of(self)) && was.generation == self.generation
    }
}

// An edit that gives the document and is felt from a mark on, if it changes any pattern, in a book
// whose jobs are of the table. In the row of a key stands what stood in the old row of the same
// rank where it stays, else nothing. Whoever works a job that an old row expected and that doesn't
// stay is asked to stop.
#[derive(Clone, Copy)]
struct AfterEdit<'a> {
    entries: &'a Entries,
    document: &'a Document,
    felt: Option<Mark>,
}

impl<'a, K: Keeps + Copy, V: Drop> Remakes<K, Row<K, V>> for AfterEdit<'a> {
    ghost use Rattle.dependency_book.specs.Remade.{remade_row};
    ghost use Rattle.dependency_book.specs.RowState.{IsOutOf};

    ghost key_rank = { K.rank };

    ghost made = { λ edit key old.
        remade_row (K.stays edit.document.now.branches edit.felt) key old };

    ghost may_go = { λ edit old. IsOutOf edit.entries.now old };

    fn key_rank(&self, key: &K) -> u128 {
        key.rank()
    }

    fn anew(&self, key: &K) -> Row<K, V> {
        Row {
            key: *key,
            state: RowState::Empty,
        }
    }

    fn of_old(&self, key: &K, old: &mut Row<K, V>) -> Row<K, V> {
        if key.stays(self.document, self.felt, &old.key) {
            let state = mem::replace(&mut old.state, RowState::Empty);
            Row { key: *key, state }
        } else {
            old.state.raise(self.entries);
            Row {
                key: *key,
                state: RowState::Empty,
            }
        }
    }

    fn gone(&self, old: &Row<K, V>) {
        old.state.raise(self.entries);
    }
}
