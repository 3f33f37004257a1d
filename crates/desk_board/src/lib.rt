//! A board: snapshots of a document and its texts that one thread publishes, and that viewers look
//! at without waiting.
//!
//! A snapshot has a document and a row for each of its bookmarks. Its type keeps that a text in it
//! is the one that a fresh computation of its own document gives. The board's history is the list
//! of the snapshots that were published. `publish` adds exactly one to it, or none; a look shows a
//! snapshot of it, and never one before those that the viewer saw already, or was told of by a
//! receipt.
//!
//! Contracts see the publisher, a viewer and a receipt alike: as a board, and its history as far as
//! that is known to them. `board` makes them of one board, and each call keeps that. Of what two
//! know of one board, one begins the other: `Receipt::begins` says which. So what is published,
//! what viewers are shown and what they are told of is one list.
//!
//! The history stands in contracts alone: what runs is a word that counts it, and two copies of the
//! latest snapshot, which share its texts. So a publish costs the same whatever was published
//! before. A look takes no memory and waits for nobody; a publish may wait for viewers that are
//! looking.
#![tactic(auto)]

mod absorbing;
mod fault;
mod history;
mod latest;
mod onlooking;
mod opening;
mod publisher;
mod receipt;
mod row;
mod rule;
mod seen;
mod snapshots;
mod taking;
mod viewer;

pub use desk_core::SharedText;
pub use fault::{BoardFault, PublishFault};
pub use opening::board;
pub use publisher::Publisher;
pub use receipt::Receipt;
pub use row::ShownRow;
pub use seen::Seen;
pub use snapshots::Snapshot;
pub use taking::snapshot;
pub use viewer::Viewer;
