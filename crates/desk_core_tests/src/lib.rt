//! Worked desks, with what they show.
#![tactic(auto)]

#[cfg(test)]
mod tests;
