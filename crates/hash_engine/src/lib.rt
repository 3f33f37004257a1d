//! HashLife over shared squares: the middle of a square up to 2^k generations later, where each
//! distinct square is computed once, but for blocks of 4 by 4 cells: a `search` remembers a limited
//! number of them, and puts one that it no longer remembers to the rule again.
//!
//! A result is that of the function of squares of `hash_life_laws`, which is single steps by the law that stands
//! there (R. Wm. Gosper, Exploiting Regularities in Large Cellular Spaces, Physica 10D, 1984). A
//! square of level k + 2 is asked for nine results of level k + 1 and four of what these make. In one
//! call a level is asked for two counts of generations at most, the full 2^k and one other. Results by
//! the full count are noted in the table, beside the quadrants of their squares, and a list by the
//! squares' numbers remembers the others: 4 bytes a square. The rule is asked at level 2 alone, four
//! times for each square of 4 by 4 cells that is put to it. `Asking` keeps what it answers for the 512
//! neighbourhoods of the states 0 and 1.
//!
//! `search`, which goes on from what earlier calls found, makes no square that it doesn't need: blocks
//! of 4 by 4 cells between those of a square of 8 by 8 are known by their quadrants alone, and where no
//! generation is left the middles of four squares are joined without these. `forward` is the recursion
//! of both this and `counted_engine`, which makes all of these squares.
//!
//! Where a table begins with the small squares, which are those of 2 by 2 and of 4 by 4 cells of states 0
//! and 1, `search` finds the result of a square of 16 by 16 cells four generations later by `bit_blocks`,
//! and makes no square between. Then the rule is asked once for each small square of 4 by 4 cells.
#![tactic(auto)]

mod asking;
mod block;
mod eight;
mod fault;
mod later;
mod memo;
mod parts;
mod sixteen;
mod small;

pub use asking::Asking;
pub use fault::ResultFault;
pub use later::{forward, search};
pub use memo::Memo;
pub use small::{SMALL_SQUARES, lay_small};
