//! Squares of cells of two states as numbers, and the middle of a square of 16 by 16 cells four
//! generations later by look-ups alone.
//!
//! A block of 4 by 4 cells of the states 0 and 1 is a number of 16 bits. `Answers` keeps for each of
//! the 65,536 blocks what a rule makes of the 2 by 2 cells in its middle one generation later: 64 KB.
//! The rule is asked when a block first comes, four times for each block at most, ever.
//!
//! `four_later` takes the square as a grid of 8 by 8 squares of 2 by 2 cells. The blocks that overlap
//! in a grid give the next one, whose squares lie a cell further right and down, with a row and a
//! column less: 49, 36, 25 and then 16 look-ups, which is 126 bytes read. What stands then is the
//! result of the square in HashLife (`hash_life_laws`), and no square between is made.
#![tactic(auto)]

mod answers;
mod generations;
mod grid;

pub use answers::{Answers, ask_four};
pub use generations::four_later;
