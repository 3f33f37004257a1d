//! Worked jobs, their answers, and posts.
#![tactic(auto)]

#[cfg(test)]
mod tests;
