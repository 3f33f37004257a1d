//! Worked offers and takes.
#![tactic(auto)]

#[cfg(test)]
mod tests;
