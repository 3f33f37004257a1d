//! The tests of `hash_engine`.
#![tactic(auto)]

#[cfg(test)]
mod tests;
