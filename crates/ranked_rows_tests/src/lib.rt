//! Shelves by rising mark, worked by hand.
#![tactic(auto)]

#[cfg(test)]
mod tests;
