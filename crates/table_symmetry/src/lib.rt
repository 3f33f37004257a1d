//! Rule tables: what their lines mean, what they expand to, and the next state that they give.
//!
//! `read_table` takes the lines of a section and gives exactly the table that they mean, or the
//! first fault that they have with its line. A `TableRule` answers the next state of a cell by the
//! states at and around it: the result of the first transition that matches. `expand` lists its
//! transitions without variables and symmetries, of which a table has at most 1,000,000.
//!
//! A `TableRule` keeps a bit for each expanded transition, each of its inputs and each state. A
//! next state costs one look at each input for 64 expanded transitions, up to the first that
//! matches. A `SoundTable` is the table alone, for those who don't ask it for next states.
#![tactic(auto)]

mod arrangement;
mod expansion;
mod laws;
mod lookup;
mod matching;
mod sound_table;
mod table;
mod table_reader;

pub use expansion::Expanded;
pub use laws::{
    permute_takes_all_orders, symmetries_are_generated, tables_of_files_are_sound,
    tables_of_files_are_written, written_means_the_same,
};
pub use sound_table::SoundTable;
pub use table::TableRule;
pub use table_lines::{
    Entry, Head, Neighborhood, StateSet, Symmetry, TableLines, Transition, Variable, read_lines,
};
pub use table_reader::{read_expanded, read_table};
