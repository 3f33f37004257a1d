//! The rows of bookmarks.
ghost use Rattle.std.specs.Prelude.{◌≡◌, count_by, length};
ghost use Rattle.dependency_book.specs.BookState.{is_pending};
ghost use Rattle.dependency_book.specs.Ready.{IsFirst, NoneBefore, can_view, place_ready, viewable};

use crate::arrival::ArrivalRow;
use crate::row::{Key, Row};
use crate::shared_text::SharedText;
use desk_events::Mark;
use schedule::Bookmark;

/// A bookmark with its text, or the job that is out for it.
pub(crate) type TextRow = Row<Bookmark, SharedText>;

impl Key for Bookmark {
    ghost use Rattle.dependency_book.specs.Rows.{bookmark_rank};

    ghost rank = { bookmark_rank };

    fn rank(&self) -> u128 {
        u128::from(self.id)
    }
}

// Whether the text of a bookmark isn't known.
fn is_pending(row: &TextRow) -> bool
    ensures { result ≡ is_pending row.now }
{
    !row.state.is_known()
}

/// How many of the texts aren't known.
pub(crate) fn pending_count(rows: &[TextRow]) -> usize
    ensures { result ≡ count_by is_pending rows.now }
{
    let mut count = 0;
    for row in rows {
        if is_pending(row) {
            count += 1;
        }
    }
    count
}

// Whether what arrives at a mark is known, whose row is at this place; the start always is.
fn is_ready_in(arrivals: &[ArrivalRow], mark: Mark, place: usize) -> bool
    ensures { result ≡ place_ready arrivals.now mark place }
{
    if mark.is_start() {
        return true;
    }
    match arrivals.get(place) {
        Some(row) => row.state.is_known(),
        None => false,
    }
}

// Whether nothing stands for a text where what arrives at its mark is known.
fn can_view(arrivals: &[ArrivalRow], row: &TextRow, place: usize) -> bool
    ensures { result ≡ can_view arrivals.now row.now place }
{
    row.state.is_empty() && is_ready_in(arrivals, Mark::of(&row.key), place)
}

/// The place of the first text for which nothing stands where what arrives at its mark is known.
/// The places are those of the texts' marks among the arrivals. No text before `from` is one.
pub(crate) fn first_view(
    arrivals: &[ArrivalRow],
    texts: &[TextRow],
    places: &[usize],
    from: usize,
) -> Option<usize>
    requires long { length places.now ≡ length texts.now }
    requires passed { NoneBefore (viewable arrivals.now texts.now places.now) from }
    ensures { IsFirst (viewable arrivals.now texts.now places.now) (length texts.now) result }
{
    for index in from..texts.len() {
        if can_view(arrivals, &texts[index], places[index]) {
            return Some(index);
        }
    }
    None
}
