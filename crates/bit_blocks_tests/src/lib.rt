//! The tests of `bit_blocks`.
#![tactic(auto)]

#[cfg(test)]
mod tests;
