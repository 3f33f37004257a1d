//! Many generations of a plane: HashLife over shared squares.
//!
//! An `Engine` makes the pattern squares of a table, with empty ones round them until there is room,
//! finds the result of the whole for any number of generations (R. Wm. Gosper, Exploiting
//! Regularities in Large Cellular Spaces, Physica 10D, 1984), and packs it as a plane. What is the
//! same in space or time is computed once, so that a pattern may be carried 2^60 generations ahead.
//! It keeps the squares and their results from one call to the next, and goes in leaps as long as the
//! room for squares allows. Under a rule of two states a table begins with the small squares, by which
//! the least steps are looked up, once as many squares were made as they cost, or where the pattern is
//! large.
#![tactic(auto)]

mod allowance;
mod cache;
mod evolved;
mod kept;
mod laws;
mod margin;
mod pace;
mod padding;
mod pieces;
mod reach;
mod room;

pub use evolved::EvolveFault;
pub use kept::Engine;
pub use laws::each_way_is_there;
pub use margin::fits;
pub use padding::rooted;
pub use room::no_squares;
