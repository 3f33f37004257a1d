//! How a board is opened.
ghost use Rattle.std.specs.Prelude.{◌≡◌, ◌<◌, ◌≤◌, ◌∷◌, [], IfOk, All, vec_len};
ghost use Rattle.desk_board.specs.BoardHistory.{unseen};
ghost use Rattle.desk_board.specs.Copies.{Knows};

use crate::fault::BoardFault;
use crate::latest::Latest;
use crate::publisher::{BoardWriter, Publisher, show};
use crate::receipt::Receipt;
use crate::rule::Tell;
use crate::snapshots::Snapshot;
use crate::viewer::Viewer;
use left_right::writer::Writer;
use std::alloc::{AllocError, Global};
use std::sync::{Arc, Wait};

// A viewer of what the writer shows. The writer tells it which board that is.
fn viewer_of(writer: &mut BoardWriter, none: &Receipt) -> Result<Viewer, BoardFault>
    requires { Knows writer.old.desk.place.me.0.client none.now.board }
    ensures shown { writer.new.desk.shown ≡ writer.old.desk.shown }
    ensures knows { Knows writer.new.desk.place.me.0.client none.now.board }
    ensures viewer { IfOk result (λ viewer. viewer ≡ none.now) }
{
    let Ok(mut reader) = writer.factory().reader() else {
        return Err(BoardFault::NoViewer);
    };
    reader.learn::<Tell>(writer.tell::<Tell>());
    Ok(Viewer {
        reader,
        receipt: none.again(),
    })
}

// So many of them.
fn viewers_of(
    alloc: Global,
    writer: &mut BoardWriter,
    none: &Receipt,
    viewers: u8,
) -> Result<Vec<Viewer>, BoardFault>
    requires { Knows writer.old.desk.place.me.0.client none.now.board }
    ensures shown { writer.new.desk.shown ≡ writer.old.desk.shown }
    ensures knows { Knows writer.new.desk.place.me.0.client none.now.board }
    ensures count { IfOk result (λ all. vec_len all ≡ viewers) }
    ensures each { IfOk result (λ all. All (λ viewer. viewer ≡ none.now) all.items) }
{
    let mut all = Vec::new(alloc);
    for _ in 0..viewers {
        all.push(viewer_of(writer, none)?)?;
    }
    Ok(all)
}

// The writer of a board whose history ends with the first snapshot.
fn written(alloc: Global, first: &Latest, viewers: u8) -> Result<BoardWriter, AllocError>
    requires { (0 < viewers) × (viewers ≤ 16) }
    ensures { IfOk result (λ writer. writer.desk.shown.value ≡ first.now) }
{
    Writer::new(alloc, first.again()?, first.again()?, usize::from(viewers))
}

/// A board whose history is the first snapshot, with 1 to 16 viewers of it that saw nothing yet.
/// Where it can't be opened the snapshot is given up. It may wait.
pub fn board<R: Wait + Drop>(
    rt: R,
    alloc: Global,
    first: Snapshot,
    viewers: u8,
) -> Result<(Publisher<R>, Vec<Viewer>), BoardFault>
    requires { (0 < viewers) × (viewers ≤ 16) }
    ensures opened { IfOk result (λ ends. ends.0.pictures ≡ first ∷ []) }
    ensures count { IfOk result (λ ends. vec_len ends.1 ≡ viewers) }
    ensures own { IfOk result (λ ends. All (λ v. v ≡ unseen ends.0.board) ends.1.items) }
{
    let (none, counter) = Receipt::opening();
    let Some(first) = Latest::after(&none, &counter, Arc::new(alloc, first)?) else {
        return Err(BoardFault::NoMemory);
    };
    let writer = written(alloc, &first, viewers)?;
    // The first snapshot is shown once more: so the writer knows which board it is of, and the
    // copies have the room for each later one.
    let (mut writer, shown) = show(writer, &rt, first);
    let all = match shown {
        Ok(()) => viewers_of(alloc, &mut writer, &none, viewers),
        Err(AllocError) => Err(BoardFault::NoMemory),
    };
    match all {
        Ok(all) => Ok((
            Publisher {
                rt,
                writer,
                counter,
                alloc,
            },
            all,
        )),
        Err(fault) => {
            writer.take(&rt);
            Err(fault)
        }
    }
}
