//! What an edit changes in the history of a document, and what it leaves.
//!
//! An edit of interventions touches a branch where what it changes acts, before the edit or after
//! it. From the first such mark on it may be felt: there, and in every branch whose line leaves
//! that branch later. An edit of the start or of the rule may be felt everywhere, and any other
//! nowhere. What arrives at a mark stays where the line back to branch 0 passes no mark that is
//! felt, so it needn't be computed again.
//!
//! Whether an edit changes a pattern at all is seen on the pattern that arrives: `lays_alike` lays
//! on it what acts there before the edit and what acts there after it, and compares the two. No
//! step is computed.
#![tactic(auto)]

mod cells;
mod felt;

pub use cells::{cells_at, lays_alike};
pub use felt::{felt_from, keeps_arrival, leaves_after, touched_by};
