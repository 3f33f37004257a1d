//! What shows that snapshots were published.
ghost use Rattle.std.specs.Prelude.{◌≡◌, [], length, IfSome, MatchBool};
ghost use Rattle.desk_board.specs.BoardHistory.{Begins, Precedes, and_then};
ghost use Rattle.desk_board.specs.Log.{head_of};

use crate::history::{Add, Counter, Fact, HistoryRule, Nothing};
use crate::snapshots::Snapshot;
use logbook::{Offer, Seen, Start, Word};
use std::marker::Model;

/// That snapshots of a board were published. Contracts see it as the board's history up to the
/// last of them. It holds none of them.
#[derive(Drop)]
pub struct Receipt {
    position: u64,
    fact: Fact,
}

impl Model for Receipt {
    ghost use Rattle.std.specs.Coded.{codes};
    ghost use Rattle.worlds.specs.World.{coded_world};
    ghost use Rattle.desk_board.specs.BoardHistory.{BoardHistory};

    ghost Value = { BoardHistory };

    ghost coded = { Prim.hlevel (codes, coded_world) };

    ghost use Rattle.std.specs.Prelude.{◌≡◌, length};
    ghost use Rattle.desk_board.specs.BoardHistory.{history};

    ghost view = { λ r. history r.fact.book r.fact.log };

    ghost invariant = { λ r. r.position ≡ length r.fact.log };
}

impl Receipt {
    /// A board of which nothing is published yet.
    pub(crate) fn opening() -> (Receipt, Counter)
        ensures { (result.0.pictures ≡ []) × (result.1 ≡ head_of result.0.board) }
    {
        let (fact, mut first, _second) = Seen::open(Start::alone(), 0, 0);
        let counter = Word::tracked(0, &mut first);
        (Receipt { position: 0, fact }, counter)
    }

    /// Of the same snapshots.
    pub(crate) fn again(&self) -> Receipt
        ensures { result ≡ self.now }
    {
        Receipt {
            position: self.position,
            fact: self.fact.again(),
        }
    }

    /// Of one more snapshot, which is put behind the history. None where it can't be counted any
    /// more, or the history has more than this receipt is of.
    pub(crate) fn and(&self, counter: &Counter, next: &Snapshot) -> Option<Receipt>
        requires { counter.now ≡ head_of self.now.board }
        ensures { IfSome result (λ receipt. receipt ≡ and_then self.now next.now) }
    {
        let position = self.position.checked_add(1)?;
        let mut fact = self.fact.again();
        let mut offer: Offer<Snapshot, u64, HistoryRule, Nothing> = fact.plain::<
            Nothing,
            Snapshot,
            Add,
        >(next);
        let mut pen = fact.no_pen();
        let found = counter.compare_exchange::<Add, Nothing>(
            self.position,
            position,
            &mut fact,
            &mut offer,
            &mut pen,
        );
        if found != self.position {
            return None;
        }
        Some(Receipt { position, fact })
    }

    /// Where its last snapshot stands in the history, counted from 1.
    pub fn position(&self) -> u64
        ensures { result ≡ length self.now.pictures }
    {
        self.position
    }

    /// Whether another receipt of the board is of all that this one is of. If not, this one is of
    /// more.
    pub fn begins(&self, other: &Receipt) -> bool
        requires { other.now.board ≡ self.now.board }
        ensures { MatchBool result (Begins self.now other.now) (Precedes other.now self.now) }
    {
        // One history goes on from both.
        let mut both = self.fact.again();
        both.learn(&other.fact);
        self.position <= other.position
    }
}
