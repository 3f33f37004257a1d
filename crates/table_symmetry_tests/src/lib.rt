//! Tests of `table_symmetry`, by its public calls.
#![tactic(auto)]

#[cfg(test)]
mod tests;
