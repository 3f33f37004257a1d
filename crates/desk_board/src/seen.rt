//! A viewer while it looks.
ghost use Rattle.std.specs.Prelude.{◌≡◌};
ghost use Rattle.desk_board.specs.BoardHistory.{EndsWith};

use crate::latest::Latest;
use crate::receipt::Receipt;
use crate::rule::{BoardRule, Known};
use crate::snapshots::Snapshot;
use crate::viewer::Viewer;
use left_right::reader::Reading;
use std::marker::Model;

/// A viewer that is shown a snapshot. It ends by `done`.
pub struct Seen {
    pub(crate) reading: Reading<Latest, Known, BoardRule>,
    pub(crate) receipt: Receipt,
}

impl Model for Seen {
    ghost use Rattle.std.specs.Coded.{codes};
    ghost use Rattle.worlds.specs.World.{coded_world};
    ghost use Rattle.desk_board.specs.BoardHistory.{BoardHistory};

    ghost Value = { BoardHistory };

    ghost coded = { Prim.hlevel (codes, coded_world) };

    ghost use Rattle.desk_board.specs.Copies.{ShowsHistory};

    ghost view = { λ s. s.receipt };

    ghost invariant = { λ s. ShowsHistory s.reading.place.me.0.client s.reading.part.value s.receipt };
}

impl Seen {
    /// The last snapshot of the history as far as it was seen.
    pub fn snapshot(&self) -> &Snapshot
        ensures { EndsWith self.now result.now }
    {
        self.reading.get().snapshot()
    }

    /// What shows other viewers of the board that the snapshot was published.
    pub fn receipt(&self) -> Receipt
        ensures { result ≡ self.now }
    {
        self.receipt.again()
    }

    /// Ends the look.
    pub fn done(self) -> Viewer
        ensures { result ≡ self }
    {
        let Seen { reading, receipt } = self;
        Viewer {
            reader: reading.leave(),
            receipt,
        }
    }
}
