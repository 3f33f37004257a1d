//! What an engine answers that reports of its work.

use plane_core::Plane;

/// What an engine kept while it evolved a pattern; an engine that shares nothing reports zeros.
#[derive(Clone, Copy, Debug, PartialEq, Eq)]
pub struct Report {
    /// How many distinct squares there were.
    pub squares: u32,
    /// How many of these were of 4 by 4 cells.
    pub fours: u32,
    /// How many of those were put to the rule.
    pub base: u32,
}

/// A pattern some generations later, and what the engine reports of the way.
#[derive(Drop)]
pub struct Evolved {
    pub plane: Plane,
    pub report: Report,
}
