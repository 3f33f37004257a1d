//! Tests of `decision_tree`, by its public calls.
#![tactic(auto)]

#[cfg(test)]
mod tests;
