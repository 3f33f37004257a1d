//! Snapshots.
ghost use Rattle.std.specs.Prelude.{◌≡◌};
ghost use Rattle.desk_board.specs.Picture.{IsRightPicture, picture};

use crate::row::ShownRow;
use schedule::Document;
use std::marker::Model;

/// A document, and a row for each of its bookmarks in their order. A text in it is the one that
/// starting over gives for this document.
#[derive(Drop)]
pub struct Snapshot {
    document: Document,
    rows: Vec<ShownRow>,
}

impl Model for Snapshot {
    ghost use Rattle.std.specs.Coded.{codes};
    ghost use Rattle.worlds.specs.World.{coded_world};
    ghost use Rattle.desk_board.specs.Picture.{Picture};

    ghost Value = { Picture };

    ghost coded = { Prim.hlevel (codes, coded_world) };

    ghost use Rattle.desk_board.specs.Picture.{IsRightPicture, picture};

    ghost view = { λ s. picture s.document s.rows.items };

    ghost invariant = { λ s. IsRightPicture (picture s.document s.rows.items) };
}

impl Snapshot {
    /// A document with rows that are right for it.
    pub fn of(document: Document, rows: Vec<ShownRow>) -> Snapshot
        requires { IsRightPicture (picture document rows.items) }
        ensures { result ≡ picture document rows.items }
    {
        Snapshot { document, rows }
    }

    /// The document.
    pub fn document(&self) -> &Document
        ensures document { result.now ≡ self.now.plan }
        ensures right { IsRightPicture self.now }
    {
        &self.document
    }

    /// A row for each bookmark by rising id.
    pub fn rows(&self) -> &[ShownRow]
        ensures rows { result.now ≡ self.now.rows }
        ensures right { IsRightPicture self.now }
    {
        &self.rows
    }
}
