//! The rows of a book's bookmarks, one after another.
ghost use Rattle.std.specs.Prelude.{◌≡◌};
ghost use Rattle.std.specs.List.{AllByRecursion};
ghost use Rattle.std.specs.Iterator.{YieldsFirstBy, item_count};
ghost use Rattle.std.specs.Option.{option_map};
ghost use Rattle.dependency_book.specs.ShownRows.{IsScratch, shown_rows};

use crate::book::Book;
use crate::shared_text::SharedText;
use crate::texts::TextRow;
use schedule::Bookmark;
use std::marker::Model;

/// An iterator over the bookmarks of a book by rising id, each with its text, or with none while it
/// is pending. It takes no memory.
///
/// Contracts see the bookmarks that are left, and their texts.
#[derive(Drop)]
pub struct ShownRows<'a> {
    rows: &'a [TextRow],
}

impl<'a> Model for ShownRows<'a> {
    ghost use Rattle.std.specs.Prelude.{ℕ, List, Option, map};
    ghost use Rattle.schedule.specs.declared.document.Bookmark.{Bookmark};
    ghost use Rattle.dependency_book.specs.ShownRows.{handed};

    ghost Value = { List (Bookmark × Option (List ℕ)) };

    ghost view = { λ left. map handed left.rows.now };
}

impl Book<'_> {
    /// The bookmarks of the present document by rising id, each with what `shown` answers of it.
    pub fn rows(&self) -> ShownRows<'_>
        ensures rows { result ≡ shown_rows self.now }
        ensures right { AllByRecursion (IsScratch self.now.plan) result }
    {
        ShownRows { rows: &self.texts }
    }
}

impl<'a> Iterator for ShownRows<'a> {
    type Item = (Bookmark, Option<&'a SharedText>);

    ghost next_gives = { YieldsFirstBy
        (λ row. (row.0, option_map (λ text. text.now) row.1)) (λ left. left) };

    ghost remaining = { item_count (λ left. left) };

    fn next(&mut self) -> Option<(Bookmark, Option<&'a SharedText>)> {
        let (row, rest) = self.rows.split_first()?;
        self.rows = rest;
        Some((row.key, row.state.known()))
    }
}
