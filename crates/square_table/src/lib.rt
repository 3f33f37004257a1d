//! Shared squares: each distinct square of one computation stands once, and is known by a number.
//!
//! A `SquareTable` keeps the quadrants of each square by their numbers. Squares of equal cells and
//! equal level have equal numbers, and others have different ones, so two squares are compared at the
//! cost of two numbers, and what is found of one holds for all that are equal. `join` finds or makes
//! the square of four by a hash table with linear probing, at 16 bytes for the row and 5 to 16 for its
//! slots: at most half of them are in use where they are few, and else three quarters. A look-up reads a
//! slot, sometimes those behind it, and a row; with `guess` several look-ups wait for their slots
//! together. A handle, `Square`, has its quadrants in an arena that is made before the table.
//!
//! `note` writes a number down among a square's quadrants, in bits of the row that these leave free, so
//! that whoever comes by the square reads both at the cost of one.
//!
//! `load` makes the square of a plane, by one look-up for each of its rows, and `pack` the plane of a
//! square, by a step for each distinct square in it.
#![tactic(auto)]

mod fault;
mod laws;
mod load;
mod pack;
mod renumbering;
mod row;
mod slots;
mod square;
mod table;

pub use fault::TableFault;
pub use laws::{centred_tells_world, numbers_tell_squares};
pub use square::Square;
pub use table::SquareTable;
