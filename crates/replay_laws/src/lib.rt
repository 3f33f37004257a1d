//! The edits by which a document is made anew, as a definition, and the law that they do it.
//!
//! `edits_for` lists them: the rule and the start are taken, and then branches, bookmarks and
//! interventions are added by rising id. An id whose element was removed is given to another one,
//! which is removed at once, so that each of those that are there gets its own id again. The law
//! says that on an opening document none of these edits is refused, and that they lead to the
//! document, but for its revision and the last ids.
//!
//! Here is no code. What writes the edits of a document down is promised by this law that they say
//! all of it.
#![tactic(auto)]

mod laws;

pub use laws::{
    documents_are_made_anew, edits_make_documents, rows_are_made_anew, worked_document,
};
