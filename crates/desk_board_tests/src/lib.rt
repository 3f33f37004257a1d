//! Boards of snapshots, published and looked at.
#![tactic(auto)]

#[cfg(test)]
mod tests;
