//! Lists of marks, worked by hand.
#![tactic(auto)]

#[cfg(test)]
mod tests;
