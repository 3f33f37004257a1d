//! Worked edits of documents.
#![tactic(auto)]

#[cfg(test)]
mod tests;
