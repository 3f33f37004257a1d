//! The history of a board, a log that stands in contracts alone. What runs is a word that counts
//! it.
ghost use Rattle.std.specs.Prelude.{[], None};
ghost use base.Fml.{ftrue};
ghost use Rattle.desk_board.specs.Log.{AddsSnapshot, IsCountedBook};

use crate::snapshots::Snapshot;
use logbook::{Gain, Plain, Play, Rule, Seen, Word};

/// The first word is how long the history is.
pub struct HistoryRule;

impl Rule<Snapshot, u64> for HistoryRule {
    ghost holds = { λ cells log. IsCountedBook cells log };

    ghost first = { [] };

    ghost hinted = { λ _ _. Unit {0} };

    ghost shows = { λ _. [] };

    ghost keeps = { λ _ _. ftrue };

    ghost moves = { λ _ _ _ _. Unit {0} };
}

/// How long the history is, which its publisher counts.
pub(crate) type Counter = Word<Snapshot, u64, HistoryRule>;

/// That the history begins with some snapshots. It has no bytes.
pub(crate) type Fact = Seen<Snapshot, u64, HistoryRule>;

/// What is traded for a step.
pub struct Nothing;

impl Gain<Snapshot, u64> for Nothing {
    ghost after = { λ _ _ _. ftrue };
}

/// A step that adds a snapshot.
pub struct Add;

impl Play<Snapshot, u64> for Add {
    ghost then = { AddsSnapshot };
}

impl Plain<Snapshot, Snapshot, u64> for Add {
    ghost ask = { λ snapshot. snapshot };

    ghost state = { λ _. None };
}
