//! The tests of `counted_engine`.
#![tactic(auto)]

#[cfg(test)]
mod tests;
