//! What a script is read from and answered on.
ghost use Rattle.std.specs.Prelude.{◌≡◌, ◌≤◌, Err, OnOk};
ghost use Rattle.desk_server.specs.Ending.{Completes, ReadStops, WriteStops};
ghost use Rattle.desk_server.specs.Jobs.{IsFresh};
ghost use Rattle.desk_program.specs.Start.{Answers, AreOpenable};

use crate::ending::Ending;
use crate::progress::Screen;
use crate::shown::{Board, ScreenListener};
use desk_server::{CountedReader, CountedWriter, Entries, Post, RunFault, run, run_seen};
use desk_words::Facts;
use std::alloc::Global;
use std::io::{Read, Write};
use std::sync::Wait;
use std::sync::ledger::{Blank, Ledger};
use std::time::Clock;

/// A reader and a writer, and the blanks of the ledgers in which their failures are counted.
#[derive(Drop)]
pub struct Devices<R, W> {
    pub reader: R,
    pub writer: W,
    pub reader_blank: Blank,
    pub writer_blank: Blank,
}

// Runs the script, with its progress shown or not: what is written is the same.
fn run_shown<T: Wait + Clock + Eprint, R: Read, W: Write, L: Ledger, M: Ledger, P: Post>(
    rt: &T,
    alloc: Global,
    entries: &Entries,
    facts: Facts,
    reader: &mut CountedReader<R, L>,
    writer: &mut CountedWriter<W, M>,
    post: &mut P,
    board: &mut Board<'_, '_, T>,
    screen: &Screen,
) -> Result<(), RunFault>
    requires { IsFresh (P.view post.old) entries.now }
    ensures done { OnOk result
        (Completes (P.view post.old).is_prompt reader.old reader.new writer.old writer.new) }
    ensures read { result ≡ Err RunFault.Read → ReadStops R.remaining (P.view post.old).is_prompt
        reader.old reader.new writer.old writer.new }
    ensures write { result ≡ Err RunFault.Write
        → WriteStops (P.view post.old).is_prompt reader.old writer.old writer.new }
    ensures no_memory { result ≡ Err RunFault.NoMemory
        → (reader.new ≡ reader.old) × (writer.new ≡ writer.old) }
{
    let facts = facts.get();
    let Some(glimpses) = board else {
        return run(rt, alloc, entries, facts, reader, writer, post);
    };
    let mut listener = ScreenListener { rt, screen };
    match run_seen(
        rt,
        alloc,
        entries,
        facts,
        reader,
        writer,
        post,
        glimpses,
        &mut listener,
    ) {
        Ok(_) => Ok(()),
        Err(fault) => Err(fault),
    }
}

/// Answers the script that the reader gives over a post of the table, with its progress shown or
/// not, and hands the reader and the writer back with how that ended.
pub(crate) fn answer_over<
    T: Wait + Clock + Eprint,
    R: Read,
    W: Write,
    L: Ledger,
    M: Ledger,
    P: Post,
>(
    rt: &T,
    alloc: Global,
    entries: &Entries,
    facts: Facts,
    post: &mut P,
    devices: Devices<R, W>,
    board: &mut Board<'_, '_, T>,
    screen: &Screen,
) -> (Ending, R, W)
    requires devices { AreOpenable devices L.name L.parts M.name M.parts }
    requires post { IsFresh (P.view post.old) entries.now }
    ensures { Answers (P.view post.old).is_prompt R.remaining W.contents devices.reader devices.writer
        result.0 result.1 result.2 }
{
    let mut reader = CountedReader::<_, L>::new(devices.reader, devices.reader_blank);
    let mut writer = CountedWriter::<_, M>::new(devices.writer, devices.writer_blank);
    let answered = run_shown(
        rt,
        alloc,
        entries,
        facts,
        &mut reader,
        &mut writer,
        post,
        board,
        screen,
    );
    (
        Ending::of_run(answered),
        reader.into_inner(),
        writer.into_inner(),
    )
}
