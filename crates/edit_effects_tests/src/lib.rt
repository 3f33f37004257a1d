//! Edits that lay the same cells, and edits that don't.
#![tactic(auto)]

#[cfg(test)]
mod tests;
