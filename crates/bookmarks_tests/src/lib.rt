//! Worked texts of views.
#![tactic(auto)]

#[cfg(test)]
mod tests;
