//! The tests of `basics`.
#![tactic(auto)]

#[cfg(test)]
mod tests;
