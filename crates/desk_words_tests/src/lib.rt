//! The tests of `desk_words`: words that are taken, refused or ask for help, and the texts.
#![tactic(auto)]

#[cfg(test)]
mod tests;
