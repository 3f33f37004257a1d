//! Patches: what is known of some cells of a square, kept as an owned quadtree.
//!
//! A `Patch` says of some cells which state they have, 0 among the states, and keeps the others.
//! Contracts see its level and a finite map from places to states, and every call says which map
//! it gives. No call knows which allocator a patch has: memory comes from the one that was handed
//! in, and a patch is copied from one to another by `copy_to`. A refused `set` changes nothing.
//!
//! A square is divided only where a cell of it has a state, so a patch has at most `level`
//! divided squares for each such cell. `get` and `set` are one descent through the levels. `lay`
//! visits the divided squares of the other patch, and only those below which it has to write;
//! `window` is one descent for each cell, and `copy_to` one visit to each divided square.
#![tactic(auto)]

mod copy;
mod lay;
mod patch;
mod tree;

pub use patch::Patch;
pub use tree::{Four, PatchTree};
