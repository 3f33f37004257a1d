//! The one that publishes.
ghost use Rattle.std.specs.Prelude.{◌≡◌, IfOk, OnErr};
ghost use Rattle.desk_board.specs.BoardHistory.{and_then};
ghost use Rattle.desk_board.specs.Copies.{GoesOn, Knows};

use crate::fault::PublishFault;
use crate::history::Counter;
use crate::latest::Latest;
use crate::receipt::Receipt;
use crate::rule::{BoardRule, Known, See};
use crate::snapshots::Snapshot;
use core::mem::replace_with;
use left_right::writer::Writer;
use std::alloc::{AllocError, Global};
use std::marker::Model;
use std::sync::{Arc, Wait};

/// What holds the two copies.
pub(crate) type BoardWriter = Writer<Latest, Latest, Known, BoardRule>;

/// Publishes snapshots. Contracts see it as the board's history. It ends by `end`.
pub struct Publisher<R: Wait> {
    pub(crate) rt: R,
    pub(crate) writer: BoardWriter,
    pub(crate) counter: Counter,
    pub(crate) alloc: Global,
}

impl<R: Wait> Model for Publisher<R> {
    ghost use Rattle.std.specs.Coded.{codes};
    ghost use Rattle.worlds.specs.World.{coded_world};
    ghost use Rattle.desk_board.specs.BoardHistory.{BoardHistory};

    ghost Value = { BoardHistory };

    ghost coded = { Prim.hlevel (codes, coded_world) };

    ghost use Rattle.std.specs.Prelude.{◌≡◌};
    ghost use Rattle.desk_board.specs.Log.{head_of};

    ghost view = { λ p. p.writer.desk.shown.value };

    ghost invariant = { λ p. p.counter ≡ head_of p.writer.desk.shown.value.board };
}

/// Lets the history go on, or leaves it as it was.
pub(crate) fn show<R: Wait>(
    mut writer: BoardWriter,
    rt: &R,
    next: Latest,
) -> (BoardWriter, Result<(), AllocError>)
    requires { next.board ≡ writer.desk.shown.value.board }
    ensures shown { GoesOn next writer.desk.shown.value result.0.desk.shown.value result.1 }
    ensures knows { IfOk result.1
        (λ _. Knows result.0.desk.place.me.0.client next.board) }
{
    let Ok(()) = writer.append(next) else {
        return (writer, Err(AllocError));
    };
    let (writer, shown) = writer.publish_as::<See, R>(rt);
    match shown {
        Ok(()) => (writer, Ok(())),
        Err(AllocError) => (writer, Err(AllocError)),
    }
}

// `show`, in place.
fn advance<R: Wait>(writer: &mut BoardWriter, rt: &R, next: Latest) -> Result<(), AllocError>
    requires { next.board ≡ writer.old.desk.shown.value.board }
    ensures { GoesOn next writer.old.desk.shown.value writer.new.desk.shown.value result }
{
    replace_with(writer, rt, |writer, rt| show(writer, rt, next))
}

impl<R: Wait> Publisher<R> {
    /// Puts the snapshot behind the history; the receipt is of the history with it. Where there is
    /// no memory the snapshot is given up, and the history is as it was. It may wait for viewers.
    pub fn publish(&mut self, snapshot: Snapshot) -> Result<Receipt, PublishFault>
        ensures appends { IfOk result (λ _. self.new ≡ and_then self.old snapshot) }
        ensures receipt { IfOk result (λ receipt. receipt ≡ self.new) }
        ensures unchanged { OnErr result (self.new ≡ self.old) }
    {
        let snapshot = Arc::new(self.alloc, snapshot)?;
        let before = self.writer.published().receipt();
        let Some(next) = Latest::after(before, &self.counter, snapshot) else {
            return Err(PublishFault::NoMemory);
        };
        let receipt = next.receipt().again();
        // It is counted before it is shown, since viewers take its receipt from the copies. They
        // have had room for it since the opening. If they refused it all the same, it would stay
        // counted, and all that comes later be refused: what was given up is never shown.
        advance(&mut self.writer, &self.rt, next)?;
        Ok(receipt)
    }

    /// Of the whole history.
    pub fn receipt(&self) -> Receipt
        ensures { result ≡ self.now }
    {
        self.writer.published().receipt().again()
    }

    /// Ends the board. It may wait for viewers.
    pub fn end(self) -> R {
        let Publisher {
            rt,
            writer,
            counter: _,
            alloc: _,
        } = self;
        writer.take(&rt);
        rt
    }
}
