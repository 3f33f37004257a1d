//! A viewer.
ghost use Rattle.std.specs.Prelude.{◌≡◌, ◌⊎◌, IfOk, IfErr};
ghost use Rattle.desk_board.specs.BoardHistory.{Begins};

use crate::latest::Latest;
use crate::receipt::Receipt;
use crate::rule::{BoardRule, Known, See};
use crate::seen::Seen;
use left_right::reader::Reader;
use std::marker::Model;

/// Looks at what was published. Contracts see it as the board's history as far as the viewer saw
/// it or was told of it.
#[derive(Drop)]
pub struct Viewer {
    pub(crate) reader: Reader<Latest, Known, BoardRule>,
    pub(crate) receipt: Receipt,
}

impl Model for Viewer {
    ghost use Rattle.std.specs.Coded.{codes};
    ghost use Rattle.worlds.specs.World.{coded_world};
    ghost use Rattle.desk_board.specs.BoardHistory.{BoardHistory};

    ghost Value = { BoardHistory };

    ghost coded = { Prim.hlevel (codes, coded_world) };

    ghost use Rattle.desk_board.specs.Copies.{Knows};

    ghost view = { λ v. v.receipt };

    ghost invariant = { λ v. Knows v.reader.place.me.0.client v.receipt.board };
}

impl Viewer {
    /// Shows the snapshot that was published last, unless that is before one that the viewer was
    /// told of, or the board has ended. Then the viewer comes back as it was. It takes no memory
    /// and waits for nobody.
    pub fn look(self) -> Result<Seen, Viewer>
        ensures sees { IfOk result (λ seen. Begins self seen) }
        ensures back { IfErr result (λ viewer. viewer ≡ self) }
    {
        let Viewer { reader, receipt } = self;
        let reading = match reader.enter_as::<See>() {
            Ok(reading) => reading,
            Err(reader) => {
                return Err(Viewer { reader, receipt });
            }
        };
        let latest = reading.get().receipt();
        if !receipt.begins(latest) {
            return Err(Viewer {
                reader: reading.leave(),
                receipt,
            });
        }
        let receipt = latest.again();
        Ok(Seen { reading, receipt })
    }

    /// Tells the viewer of a snapshot of its own board. From now on it is shown none before that.
    pub fn learn(&mut self, receipt: &Receipt)
        requires own { receipt.now.board ≡ self.old.board }
        ensures told { Begins receipt.now self.new }
        ensures kept { Begins self.old self.new }
        ensures one { (self.new ≡ self.old) ⊎ (self.new ≡ receipt.now) }
    {
        if self.receipt.begins(receipt) {
            self.receipt = receipt.again();
        }
    }
}
