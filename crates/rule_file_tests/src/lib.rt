//! The tests of `rule_file`.
#![tactic(auto)]

#[cfg(test)]
mod tests;
