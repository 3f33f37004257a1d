//! The lower half of a script server: lines, words, numbers and texts of a script that is read as
//! it comes, and replies that are written.
//!
//! What a reader gives is taken a line at a time, and what is proved is that the lines are those
//! of the bytes that were read, whatever follows them. Memory is taken for one line or text and
//! never for the script: a line is kept as far as there is memory, and always as far as is needed
//! to tell short lines apart, runs of spaces cut to one. A line or a text costs time and memory in
//! proportion to its own length. Failures of both ends are counted, and a fault leaves what was
//! read or written by then named exactly.
#![tactic(auto)]

mod failures;
mod input;
mod kept_line;
mod kept_text;
mod numbers;
mod reader;
mod source;
mod words;
mod writer;

pub use kept_line::{KeptLine, LineFound};
pub use kept_text::KeptText;
pub use numbers::{signed, unsigned};
pub use reader::{CountedReader, TextFound};
pub use source::Failed;
pub use words::next_word;
pub use writer::CountedWriter;
