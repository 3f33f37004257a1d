//! The tests of `text_lines`.
#![tactic(auto)]

#[cfg(test)]
mod tests;
