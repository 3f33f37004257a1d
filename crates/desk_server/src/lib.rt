//! Scripts: what is asked of a desk in lines of text, and what it replies.
//!
//! `run` reads a script and writes the reply to each command before it reads the next. What it
//! writes is the replies to the script: what each command in turn makes of the document, and for
//! each bookmark that is shown the text that starting over gives. A command that meets want of
//! memory says so and changes nothing, or leaves a bookmark pending, as does a step that wants more
//! squares than it may keep. What a settling leaves pending it says with its cause.
//!
//! `run_seen` does the same while somebody looks on at the desk: after each reply but `bye`, and
//! before it after each answer that a settling collected. A board's publisher looks on by
//! publishing a snapshot. A listener is told when a settling waits.
//!
//! What isn't known is computed by jobs over a post, which the caller opens beside the table of
//! entries that the jobs are of.
//!
//! A line is kept only as far as its command needs. A settling costs what its bookmarks cost; all
//! else is in proportion to what is read and written.
#![tactic(auto)]

mod listener;
mod listing;
mod parts;
mod reply;
mod serve;
mod server;
mod watch;

pub use desk_core::{Entries, InlinePost, Onlooker, Post};
pub use listener::Listener;
pub use script_lines::{CountedReader, CountedWriter};
pub use server::{RunFault, run, run_seen};
