//! The snapshot of a desk.
ghost use Rattle.std.specs.Prelude.{◌≡◌, IfOk};
ghost use Rattle.std.specs.Option.{option_map};
ghost use Rattle.desk_board.specs.Picture.{IsRightPicture, picture_of};

use crate::row::ShownRow;
use crate::snapshots::Snapshot;
use desk_core::{Desk, SharedText};
use std::alloc::{AllocError, Global};

/// The desk's document as it is now, and a row for each bookmark with what the desk shows of it.
/// The texts are shared and not copied, in one pass over the desk's rows.
pub fn snapshot(alloc: Global, desk: &Desk<'_>) -> Result<Snapshot, AllocError>
    ensures desk { IfOk result (λ snapshot. snapshot ≡ picture_of desk.now) }
    ensures right { IfOk result IsRightPicture }
{
    let mut rows = Vec::with_capacity(alloc, desk.document().bookmarks().len())?;
    for (bookmark, text) in desk.rows() {
        let text = shared(text)?;
        rows.push(ShownRow { bookmark, text })?;
    }
    Ok(Snapshot::of(desk.document().copy()?, rows))
}

// The text, if there is one, by one more owner of its bytes.
fn shared(text: Option<&SharedText>) -> Result<Option<SharedText>, AllocError>
    ensures { IfOk result (λ shared. shared ≡ option_map (λ bytes. bytes.now) text.entry) }
{
    match text {
        Some(text) => Ok(Some(text.share()?)),
        None => Ok(None),
    }
}
