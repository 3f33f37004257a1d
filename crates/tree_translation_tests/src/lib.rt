//! Tests of `tree_translation`, by its public calls.
#![tactic(auto)]

#[cfg(test)]
mod tests;
