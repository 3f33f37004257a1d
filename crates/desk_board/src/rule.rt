//! The rule of the two copies, and what its steps tell.
ghost use Rattle.std.specs.Prelude.{None};
ghost use Rattle.desk_board.specs.Copies.{KeepsToOneBoard, Sees};

use crate::latest::Latest;
use crate::receipt::Receipt;
use atomic_table::{Join, Split};
use crossbeam_utils::rule::{Outcome, Protocol};

/// What a thread knows: nothing, or some history of the board. No value of it is made.
pub type Known = Option<Receipt>;

/// What a thread knows is of the board whose snapshots the copies have.
pub struct BoardRule;

impl Protocol<Latest, Known> for BoardRule {
    ghost holds = { KeepsToOneBoard };

    ghost first = { None };
}

/// A thread gets to know the history.
pub struct See;

impl Outcome<Latest, Known> for See {
    ghost then = { Sees };
}

/// One thread tells another what it knows.
pub struct Tell;

impl Split<Known> for Tell {
    ghost left = { λ known. known };

    ghost right = { λ known. known };
}

impl Join<Known> for Tell {
    ghost both = { λ _ told. told };

    ghost spent = { None };
}
