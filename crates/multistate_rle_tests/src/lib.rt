//! The tests of `multistate_rle`.
#![tactic(auto)]

#[cfg(test)]
mod tests;
