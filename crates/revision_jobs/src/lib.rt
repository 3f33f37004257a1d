//! Jobs: what is to be computed of a document's patterns, and the answers.
//!
//! A table of entries says what is to be computed, each a step over some generations or the text of
//! a view. It only grows, threads share it without a lock, and a place in it shows one entry for
//! good. A job is a place with a number. `work` and `work_by` alone make its answer, and the
//! answer's type keeps that a value in it is the value of the entry, so whoever is handed an answer
//! may use it, however late or often it comes. A post is where jobs are sent and answers come from;
//! `InlinePost` works them in the caller's thread. `Worked` is an answer on its way to a post, with
//! the evidence that a flag was seen raised where it says that its job was stopped.
//!
//! Reading an entry, its stop flag or its index costs the same however long the table is. `work`
//! costs laying the entry's cells, if it has any, and the engine's generations or the text of the view.
#![tactic(auto)]

mod answer;
mod answers;
mod count;
mod entries;
mod entry;
mod gate;
mod inline;
mod laid;
mod past;
mod post;
mod post_record;
mod stop;
mod worked;
mod worker;

pub use answer::{Answer, Job, Outcome, Parts};
pub use entries::{Entries, Place};
pub use entry::{Entry, Rendering, Step};
pub use gate::{Gate, NoGate};
pub use inline::InlinePost;
pub use post::{Post, Received, Sent};
pub use post_record::PostRecord;
pub use stop::EntryStop;
pub use worked::Worked;
pub use worker::{work, work_by};
