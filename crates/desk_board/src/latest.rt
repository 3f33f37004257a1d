//! What each of the two copies holds.

use crate::receipt::Receipt;
use crate::snapshots::Snapshot;
use std::alloc::Global;
use std::marker::Model;
use std::sync::Arc;

/// The snapshot that was published last, which the copies share, and the receipt for it. Contracts
/// see the history up to it.
#[derive(Drop)]
pub struct Latest {
    pub(crate) snapshot: Arc<Snapshot, Global>,
    pub(crate) receipt: Receipt,
}

impl Model for Latest {
    ghost use Rattle.std.specs.Coded.{codes};
    ghost use Rattle.worlds.specs.World.{coded_world};
    ghost use Rattle.desk_board.specs.BoardHistory.{BoardHistory};

    ghost Value = { BoardHistory };

    ghost coded = { Prim.hlevel (codes, coded_world) };

    ghost use Rattle.std.specs.Arc.{arc_value};
    ghost use Rattle.desk_board.specs.BoardHistory.{EndsWith};

    ghost view = { λ l. l.receipt };

    ghost invariant = { λ l. EndsWith l.receipt (arc_value l.snapshot) };
}
