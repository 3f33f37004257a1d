//! The tests of `script_lines`: lines, texts, numbers and faults, as tables.
#![tactic(auto)]

#[cfg(test)]
mod tests;
