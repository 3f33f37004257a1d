//! The desk: a document, and what is known of its patterns and of the texts of its bookmarks.
//!
//! A text that the desk shows as current is the one that a fresh computation of the document gives,
//! as the document is now, whatever edits were made or refused before and however often the desk
//! was settled. A bookmark whose text isn't known is shown as pending.
//!
//! What isn't known is computed by jobs, which a desk numbers and whoever likes works. An answer
//! counts where a row of the present document expects its job, however late it comes and whatever
//! edits were made meanwhile; any other is stale and changes nothing. `settle` issues, sends and
//! collects over a post until nothing is needed, and `settle_seen` does so while somebody looks on;
//! `feed` only issues and sends, and `poll` collects what has come and then feeds, without waiting
//! for an answer.
//!
//! An edit keeps what it doesn't touch, known or expected. Nothing is computed here.
#![tactic(auto)]

mod cause;
mod collect;
mod desk;
mod feeding;
mod issue;
mod laws;
mod looking;
mod polling;
mod progress;
mod rows;
mod settling;
mod unsent;

pub use cause::Cause;
pub use collect::Collected;
pub use dependency_book::{SharedText, Shown, ShownRows};
pub use desk::Desk;
pub use feeding::feed;
pub use issue::IssueFault;
pub use laws::{calls_are_of_law, calls_show_only_scratch};
pub use looking::{Onlooker, Unwatched};
pub use polling::{Polled, poll};
pub use revision_jobs::{
    Answer, Entries, Entry, InlinePost, Job, NoGate, Outcome, Place, Post, Received, Sent, work,
};
pub use schedule::{CellSet, Edit, EditFault, Edited, Listing, Plane, Reason, Refusal, Rule, View};
pub use settling::{Settling, settle, settle_seen};
pub use step_engine::EvolveFault;
