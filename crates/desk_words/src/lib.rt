//! The words of the program's command line, as `clap` reads them.
//!
//! The program has the options `--workers`, the number of workers that compute, `--facts`, how many
//! results of steps a desk may keep, and `--squares`, how many squares the engine of a worker may
//! hold; it has `--progress`, which shows how far a settling is; and it has help and a version. Whoever
//! starts it gets what its words choose, or the text that they ask for, or learns why they are refused,
//! with the text for the user; nothing of `clap` shows outside, so that a program above stands on this
//! crate alone. Words cost time and memory in proportion to their length.
#![tactic(auto)]

mod bounded;
mod command;
mod help;
mod settings;
mod version;
mod words;

pub use bounded::{Bounded, OutOfRange};
pub use settings::{Facts, Options, Squares, Workers};
pub use words::{OptionFault, check_words, given_words, options};
