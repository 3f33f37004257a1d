//! What comes of an answer.

use step_engine::EvolveFault;

/// What came of an answer.
#[derive(Clone, Copy, Debug, PartialEq, Eq)]
pub enum Filled {
    /// The row that expected the job has the answer's value.
    Row,
    /// The job gave up, for this reason, and its row expects nothing any more.
    Released(EvolveFault),
    /// No row expects the job. Nothing changed.
    NotExpected,
}
