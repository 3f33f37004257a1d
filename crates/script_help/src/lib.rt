//! The commands of a script as users read them: one text, which the program's help shows and which a
//! script is answered with. It stands below both, so that neither needs the other.
//!
//! Nothing here knows what a command does. It costs no time and no memory.
#![tactic(auto)]

mod commands;

pub use commands::command_list;
