//! Scripts, their replies, and devices that fail.
ghost use Rattle.std.specs.Prelude.{◌≡◌, ◌<◌, ◌≤◌};
ghost use Rattle.desk_server.specs.Jobs.{IsFresh};

mod anew;
mod board;
mod branches;
mod devices;
mod edits;
mod faults;
mod first;
mod over;
mod posts;
mod repeats;
mod room;
mod scripts;
mod starts;
mod unruly_faults;
mod views;

use crate::tests::devices::{Narrow, Pieces};
use desk_server::{CountedReader, CountedWriter, Entries, InlinePost, Post, RunFault, run};
use std::alloc::Global;
use std::fmt::Debug;
use std::io::Write;
use std::marker::Brand;
use std::process::Abort;
use std::sync::Wait;
use std::sync::ledger::{Blank, Ledger};

// A script and the replies to it.
pub struct Row {
    pub script: &'static [u8],
    pub replies: &'static [u8],
}

pub fn same<T: PartialEq + Debug, A: Debug>(rt: &impl Abort, found: &T, wanted: &T, at: &A) {
    assert_eq!(rt; *found, *wanted, "at {at:?}");
}

// How many squares a step may keep, unless a test says otherwise.
pub const SQUARES: u32 = 4096;

fn answer_counted<P: Post, W: Write, L: Ledger, M: Ledger>(
    rt: &(impl Abort + Wait),
    alloc: Global,
    entries: &Entries,
    post: &mut P,
    pieces: Pieces<'_>,
    writer: W,
    reader_blank: Blank,
    writer_blank: Blank,
) -> (Result<(), RunFault>, W)
    requires fresh { IsFresh (P.view post.old) entries.now }
    requires reader { (reader_blank.name ≡ L.name) × (reader_blank.parts ≡ L.parts)
        × (0 < reader_blank.parts) }
    requires writer { (writer_blank.name ≡ M.name) × (writer_blank.parts ≡ M.parts)
        × (0 < writer_blank.parts) }
{
    let mut reader = CountedReader::<_, L>::new(pieces, reader_blank);
    let mut writer = CountedWriter::<_, M>::new(writer, writer_blank);
    let answered = run(rt, alloc, entries, 64, &mut reader, &mut writer, post);
    (answered, writer.into_inner())
}

// How a run over this post and this writer ended, and the writer after it.
pub fn answer_over<P: Post, W: Write>(
    rt: &(impl Abort + Wait),
    alloc: Global,
    entries: &Entries,
    post: &mut P,
    pieces: Pieces<'_>,
    writer: W,
) -> (Result<(), RunFault>, W)
    requires { IsFresh (P.view post.old) entries.now }
{
    answer_counted::<_, _, Brand, Brand>(
        rt,
        alloc,
        entries,
        post,
        pieces,
        writer,
        Blank::new(1),
        Blank::new(1),
    )
}

// How a run over this writer ended where a step may keep so many squares, and the writer after it.
pub fn answer_to<W: Write>(
    rt: &(impl Abort + Wait),
    alloc: Global,
    squares: u32,
    pieces: Pieces<'_>,
    writer: W,
) -> (Result<(), RunFault>, W)
    requires { squares ≤ 16777216 }
{
    let entries = Entries::new(alloc).expect(rt, "memory");
    let mut post = InlinePost::new(alloc, &entries, squares);
    answer_over(rt, alloc, &entries, &mut post, pieces, writer)
}

// How a run ended, and what was written where so many bytes may be.
pub fn answer(
    rt: &(impl Abort + Wait),
    alloc: Global,
    pieces: Pieces<'_>,
    limit: usize,
) -> (Result<(), RunFault>, Vec<u8>) {
    let narrow = Narrow {
        taken: Vec::new(alloc),
        limit,
    };
    let (answered, narrow) = answer_to(rt, alloc, SQUARES, pieces, narrow);
    (answered, narrow.taken)
}

// The whole script is answered by these replies.
pub fn answers(rt: &(impl Abort + Wait), alloc: Global, pieces: Pieces<'_>, replies: &[u8]) {
    let at = (pieces.bytes, pieces.size);
    let (answered, told) = answer(rt, alloc, pieces, usize::MAX);
    same(rt, &answered, &Ok(()), &at);
    same(rt, &told.as_slice(), &replies, &at);
}

pub fn row_is_answered(rt: &(impl Abort + Wait), alloc: Global, row: &Row) {
    answers(rt, alloc, Pieces::whole(row.script), row.replies);
}
