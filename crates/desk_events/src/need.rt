//! What a desk needs.

/// What a desk wants computed.
#[derive(Clone, Copy, Debug, PartialEq, Eq)]
pub enum Need {
    /// The pattern that arrives at the mark at this generation of a branch, from what is known to
    /// arrive at the mark before it.
    Step { branch: u64, mark: u64 },
    /// The text of the bookmark of this id, from what is known to arrive at its mark.
    View { id: u64 },
}
