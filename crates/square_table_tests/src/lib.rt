//! Tests of shared squares, by their public calls.
#![tactic(auto)]

#[cfg(test)]
mod planes;
#[cfg(test)]
mod tests;
