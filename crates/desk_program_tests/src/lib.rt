//! The tests of `desk_program`: what is written where, the endings, and the line that says how far a settling is.
#![tactic(auto)]

#[cfg(test)]
mod tests;
