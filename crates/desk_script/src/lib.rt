//! What the lines of a script ask, and a document as such lines.
//!
//! `listen` takes lines from a script up to the next thing that is asked: a command, or one that a
//! text follows, with that text. What it hears is what these lines ask, whatever follows them.
//! Where memory ran out, what was asked is something for which that can happen.
//!
//! `script_of` writes a document as the script that makes it anew. The line of each edit in it asks
//! for this edit.
//!
//! `opens_text` and `is_command` say what a single line would ask between texts.
//!
//! It has no desk, and answers nothing. A line is kept only as far as its command needs; all is in
//! proportion to what is read and written.
#![tactic(auto)]

mod cells;
mod command;
mod edits;
mod fault;
mod format;
mod heard;
mod interventions;
mod laws;
mod part;
mod request;
mod rule_text;
mod scripting;
mod view;
mod words;

pub use command::{Command, is_command};
pub use fault::ScriptFault;
pub use format::{Format, opens_text};
pub use heard::{Heard, listen};
pub use laws::edit_lines_read_back;
pub use part::Part;
pub use request::Request;
pub use rule_text::RuleText;
pub use scripting::script_of;
