//! Worked books, with what they know.
#![tactic(auto)]

#[cfg(test)]
mod tests;
