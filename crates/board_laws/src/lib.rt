//! What a board shows of the replies to a script, as definitions and laws.
//!
//! A run with a board's publisher as its onlooker promises what it puts behind the board's history
//! at one reply after the other. The laws say what that comes to: which snapshots the history has
//! of a whole run, and that a snapshot shows what the reply before it tells.
//!
//! Here is no code.
#![tactic(auto)]

mod laws;

pub use laws::{
    pictures_of_one_bookmark, shows_all_unless_counted, shows_the_same, shows_what_is_kept,
    shows_what_is_told,
};
