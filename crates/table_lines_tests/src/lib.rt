//! Tests of `table_lines`, by its public calls.
#![tactic(auto)]

#[cfg(test)]
mod tests;
