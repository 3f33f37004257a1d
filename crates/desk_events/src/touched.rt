//! What an edit of interventions touches.

use schedule::Acts;

/// The branch in which an edit changes what acts, and when that acts before the edit and after it,
/// which is the same where the edit adds or removes it.
#[derive(Clone, Copy, Debug, PartialEq, Eq)]
pub struct Touched {
    pub branch: u64,
    pub was: Acts,
    pub is: Acts,
}
