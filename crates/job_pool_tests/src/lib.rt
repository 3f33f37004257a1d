//! Jobs over pools of workers.
#![tactic(auto)]

#[cfg(test)]
mod tests;
