//! Rows of a snapshot.

use desk_core::SharedText;
use schedule::Bookmark;

/// A bookmark with its text, or with none while it is pending.
#[derive(Drop)]
pub struct ShownRow {
    pub bookmark: Bookmark,
    pub text: Option<SharedText>,
}
