//! Planes: what every crate of the desk means by a pattern.
//!
//! A square of level `k` has a side of `2^k` cells, and is one row that names its four quadrants,
//! so a pattern whose squares repeat takes as many rows as it has different ones. Contracts see a
//! `Plane` as a world: every call on it says which world it gives or what it tells of one. Its rows
//! are canonical: a world has one list of them, so planes with equal cells have equal rows.
//!
//! `from_squares` makes any rows canonical in a walk that sees each row once, and in a second where
//! a smaller root does. It counts the cells of each state in one pass over the rows from the root
//! down, and finds the bounds, so that `counts` and `bounds` are there, and `population` and
//! `greatest` are read off the counts. `get` is one descent of at most 62 levels, and `equals`
//! compares rows. `lay` adds a row for each square that holds a laid cell, at most 62 a cell, and
//! makes the rows canonical again. `from_spans` takes cells side by side at once, weaves those in
//! reading order to squares from the bottom up, and lets their list go before that. `cells_within`
//! descends to each live cell in its box once, and `live` sorts what it finds without one.
//!
//! The crate hands on what `worlds` declares of cells, rules and stops. `Loaded` is a pattern as a
//! file holds it.
#![tactic(auto)]

mod canonical;
mod centre;
mod counts;
mod descent;
mod edges;
mod laws;
mod lay;
mod live;
mod loaded;
mod part;
mod plane;
mod raise;
mod row;
mod shared_rows;
mod span;
mod strip;
mod valid;
mod walk;
mod weave;
mod within;

pub use laws::{empty_world_has_one_row, worlds_have_one_list_of_rows, worlds_have_rows};
pub use loaded::Loaded;
pub use plane::Plane;
pub use row::SquareRow;
pub use span::Span;
pub use valid::are_rows;
pub use worlds::{Around, Ask, Bounds, Cell, CellSet, Next, NoStop, Stop};
