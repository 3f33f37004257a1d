//! The marks of a document, as a list in order.
//!
//! Between its marks the pattern of a document evolves undisturbed. They are generation 0 of
//! branch 0, the generations at which branches begin, leave others and have bookmarks, and those
//! at which interventions act, as far as their branch reaches. `marks_of` lists all of them but
//! the first, each once, by rising branch and generation.
//!
//! The list is made in room that its caller gives. How much an edit may need is known before it is
//! made, so that a caller can refuse the edit where there is no memory. A list costs a sort, and
//! for each branch that has interventions a pass over the branches and bookmarks. No pattern is
//! looked at.
#![tactic(auto)]

mod marks;
mod rank;

pub use marks::{marks_at_most_after, marks_of};
pub use rank::rank_of;
