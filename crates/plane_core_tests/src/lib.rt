//! Tests of planes, by their public calls.
#![tactic(auto)]

#[cfg(test)]
mod tests;
