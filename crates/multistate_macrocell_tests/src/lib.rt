//! Tests of `multistate_macrocell`, by its public calls.
#![tactic(auto)]

#[cfg(test)]
mod tests;
