//! Answers that were given, for clauses alone.

use crate::answer::Answer;
use std::snapshot::Snapshot;

/// No answer, or one behind those before it. It holds none of them.
#[derive(Drop)]
pub(crate) enum Past {
    Nothing,
    Then(Snapshot<Past>, Snapshot<Answer>),
}
