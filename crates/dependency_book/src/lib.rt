//! The dependency book: a document, and what is known of the patterns at its marks and of the
//! texts of its bookmarks.
//!
//! The marks of a document are generation 0 of branch 0, the generations at which branches begin,
//! leave others and have bookmarks, and those of interventions, as far as their branch reaches.
//! What arrives at a mark depends on what arrives at the one before it, which is its parent's where
//! a branch begins, and the text of a bookmark on what arrives at its mark. Whatever is known is
//! right: a known arrival is the pattern that the document's history has at that mark, and a known
//! text is the one that a fresh computation gives. An edit keeps exactly the rows that it doesn't
//! touch, which are all where one of interventions is seen to change no pattern.
//!
//! What isn't known is computed by jobs, in any order and by anybody: a row expects the job that is
//! out for it, and takes what its answer says, whatever edits that keep the row were made since. An
//! answer that no row expects changes nothing.
//!
//! An edit and an answer each cost a search and one pass over the rows. An edit of interventions
//! also lays cells twice on the pattern that arrives where it changes what acts, if that is known,
//! and compares the two. The search for what is needed next goes on where the last one ended. No
//! step is computed here.
#![tactic(auto)]

mod arrival;
mod book;
mod change;
mod cursor;
mod entered;
mod filled;
mod jobs;
mod refusals;
mod remade;
mod row;
mod rows;
mod shared_text;
mod shown;
mod steps;
mod texts;

pub use book::Book;
pub use desk_events::{Mark, Need};
pub use filled::Filled;
pub use rows::ShownRows;
pub use shared_text::SharedText;
pub use shown::Shown;
