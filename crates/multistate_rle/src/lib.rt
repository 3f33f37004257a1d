//! Patterns of cellular automata in run length encoded text (RLE), with up to 256 states.
//!
//! `read_rle` takes the bytes of a file and gives exactly the pattern that they mean, or the first
//! fault that they have. Counts in a file may have any number of digits: nothing is made of them
//! but the live cells, of which a file has at most 16,777,216. `write_rle` writes exactly the text
//! that its definition gives for the plane's world.
//!
//! Reading goes over the file once, in time in proportion to its length and its live cells, and
//! takes memory for the live cells alone (and for one comment line that places the pattern).
//! Writing makes one pass over the live cells and keeps nothing but the text.
#![tactic(auto)]

mod body;
mod comment;
mod cut;
mod drawing;
mod fault;
mod frame;
mod head;
mod header_line;
mod laws;
mod line;
mod numbers;
mod open_run;
mod read;
mod solid;
mod symbol;
mod token;
mod write;
mod written_head;

pub use fault::RleFault;
pub use laws::written_means_the_same;
pub use read::read_rle;
pub use write::{MOST_WRITTEN, write_rle};
