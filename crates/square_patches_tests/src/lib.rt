//! Tests of patches that are laid on squares of a table.
#![tactic(auto)]

#[cfg(test)]
mod tests;
