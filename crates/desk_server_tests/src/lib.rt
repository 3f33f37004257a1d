//! The tests of `desk_server`: scripts and their replies, and devices that fail, as tables.
#![tactic(auto)]

#[cfg(test)]
mod tests;
