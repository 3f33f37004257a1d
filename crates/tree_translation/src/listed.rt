//! Lists of numbers at an input.

use crate::packed::Packed;

/// The tails that may still give the result, by their numbers.
#[derive(Debug, Drop, PartialEq, Eq, Hash)]
pub struct Listed {
    /// How many inputs come before.
    pub input: usize,
    pub numbers: Vec<u32>,
}

/// A node of a tree.
#[derive(Debug, Drop, PartialEq, Eq, Hash)]
pub struct Node {
    /// How many inputs come before.
    pub input: usize,
    /// A number for each state.
    pub entries: Packed,
}
