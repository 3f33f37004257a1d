//! Tests of `macrocell_lines`.
#![tactic(auto)]

#[cfg(test)]
mod tests;
