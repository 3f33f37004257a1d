//! What a pattern file holds.

use crate::plane::Plane;
use basics::Listing;

/// A pattern that was read from a file, with the rule's name and the generation that the file
/// gives. The name is empty and the generation 0 where it gives none.
#[derive(Drop)]
pub struct Loaded {
    pub plane: Plane,
    pub rule_name: Listing<u8>,
    pub generation: u64,
}
