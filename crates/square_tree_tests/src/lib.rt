//! Tests of patches, with the machine's memory and with an arena.
#![tactic(auto)]

#[cfg(test)]
mod tests;
