//! The tests of `step_engine`.
#![tactic(auto)]

#[cfg(test)]
mod tests;
