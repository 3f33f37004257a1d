//! Facts that are kept, and those that aren't found.
#![tactic(auto)]

#[cfg(test)]
mod tests;
