//! The tests of `plain_engine`.
#![tactic(auto)]

#[cfg(test)]
mod tests;
