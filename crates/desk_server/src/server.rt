//! A script, answered while it is read.
ghost use Rattle.std.specs.Prelude.{◌≡◌, Err, OnOk};
ghost use Rattle.desk_server.specs.Desks.{IsOpened};
ghost use Rattle.desk_server.specs.Jobs.{PostMatchesDesk, IsFresh};
ghost use Rattle.desk_server.specs.Ending.{Completes, CompletesOver, ReadStops, WriteStops};
ghost use Rattle.desk_server.specs.Watch.{NotesRun};

use crate::listener::{Listener, Silent};
use crate::reply::send;
use crate::serve::serve;
use crate::watch::note;
use desk_core::{Desk, Entries, Onlooker, Post, Unwatched};
use desk_script::{Heard, RuleText, listen};
use script_lines::{CountedReader, CountedWriter, KeptLine};
use std::alloc::Global;
use std::io::{Read, Write};
use std::sync::Wait;
use std::sync::ledger::Ledger;

/// Why a run stopped before the script's end.
#[derive(Clone, Copy, Debug, PartialEq, Eq)]
pub enum RunFault {
    /// A read failed, or 2^64 - 1 bytes came without an end.
    Read,
    /// A write failed.
    Write,
    /// There was no memory for an empty desk.
    NoMemory,
}

// The device that a run failed at.
#[derive(Clone, Copy, Debug, PartialEq, Eq)]
enum Device {
    Reader,
    Writer,
}

// Answers one command after another at a desk with the opening document, and lets the desk be noted
// after each reply but `bye`. Ok says how often it was passed over.
fn answer_commands<R: Read, W: Write, L: Ledger, M: Ledger, P: Post, O: Onlooker>(
    rt: &impl Wait,
    alloc: Global,
    reader: &mut CountedReader<R, L>,
    writer: &mut CountedWriter<W, M>,
    line: &mut KeptLine,
    desk: &mut Desk<'_>,
    post: &mut P,
    onlooker: &mut O,
    listener: &mut impl Listener,
) -> Result<u64, Device>
    requires opened { IsOpened desk.old }
    requires carries { PostMatchesDesk (P.view post.old) desk.old }
    ensures done { OnOk result
        (Completes (P.view post.old).is_prompt reader.old reader.new writer.old writer.new) }
    ensures noted { NotesRun O.sees result (P.view post.old) (P.view post.new)
        reader.old writer.old writer.new onlooker.old onlooker.new }
    ensures read { result ≡ Err Device.Reader → ReadStops R.remaining (P.view post.old).is_prompt
        reader.old reader.new writer.old writer.new }
    ensures write { result ≡ Err Device.Writer
        → WriteStops (P.view post.old).is_prompt reader.old writer.old writer.new }
{
    let mut missed = 0;
    let mut rule = RuleText::none();
    reader.begin();
    'script: loop {
        let Ok(heard) = listen(alloc, reader, line) else {
            return Err(Device::Reader);
        };
        let Heard { request, last } = heard;
        let Some(request) = request else {
            if last {
                return Ok(missed);
            }
            continue;
        };
        let reply = serve(
            rt, alloc, desk, &mut rule, post, request, onlooker, listener,
        );
        let is_bye = reply.ends();
        if send(writer, desk, reply).is_err() {
            return Err(Device::Writer);
        }
        if is_bye {
            return Ok(missed);
        }
        note(onlooker, desk, &mut missed);
        if last {
            return Ok(missed);
        }
    }
}

/// Reads a script, and writes and hands on the reply to each command before it reads the next.
///
/// What isn't known is computed by jobs of the table of entries over the post, and so many results
/// of steps may be kept beside what the document needs. It may wait where the post does. Over a
/// prompt post a settling that leaves bookmarks pending tells a cause. Over any other it may tell
/// none, where the post is closed, has ended or was asked a million times. A cause that a settling
/// or a poll tells is the first that its calls on the desk met.
pub fn run<R: Read, W: Write, L: Ledger, M: Ledger, P: Post>(
    rt: &impl Wait,
    alloc: Global,
    entries: &Entries,
    facts: u32,
    reader: &mut CountedReader<R, L>,
    writer: &mut CountedWriter<W, M>,
    post: &mut P,
) -> Result<(), RunFault>
    // The post is of the table, and took no job before.
    requires { IsFresh (P.view post.old) entries.now }

    // The replies to the script were written, for some shortages; no failure was counted, and what
    // was written was handed on.
    ensures done { OnOk result
        (Completes (P.view post.old).is_prompt reader.old reader.new writer.old writer.new) }

    // So it was over this post: what it gave was collected by the commands, in order.
    ensures over { CompletesOver result (P.view post.old) (P.view post.new)
        reader.old writer.old writer.new }

    // Where a read failed, or 2^64 - 1 bytes came, all that was read was taken, and the commands
    // that were read whole were answered.
    ensures read { result ≡ Err RunFault.Read → ReadStops R.remaining (P.view post.old).is_prompt
        reader.old reader.new writer.old writer.new }

    // Where a write failed, a beginning of the replies was written.
    ensures write { result ≡ Err RunFault.Write
        → WriteStops (P.view post.old).is_prompt reader.old writer.old writer.new }

    // Where there was no memory to begin with, nothing was read or written.
    ensures no_memory { result ≡ Err RunFault.NoMemory
        → (reader.new ≡ reader.old) × (writer.new ≡ writer.old) }
{
    match run_seen(
        rt,
        alloc,
        entries,
        facts,
        reader,
        writer,
        post,
        &mut Unwatched,
        &mut Silent,
    ) {
        Ok(_) => Ok(()),
        Err(fault) => Err(fault),
    }
}

/// Does as `run` does, while somebody looks on at the desk: after each reply but `bye`, and Ok says
/// how many of these looks saw nothing; and where a settling or a show computes, as that begins and
/// after each answer that is collected. The listener is told when that begins and ends. It may wait
/// where the onlooker does.
///
/// With a board's publisher as the onlooker each look publishes a snapshot.
pub fn run_seen<R: Read, W: Write, L: Ledger, M: Ledger, P: Post, O: Onlooker>(
    rt: &impl Wait,
    alloc: Global,
    entries: &Entries,
    facts: u32,
    reader: &mut CountedReader<R, L>,
    writer: &mut CountedWriter<W, M>,
    post: &mut P,
    onlooker: &mut O,
    listener: &mut impl Listener,
) -> Result<u64, RunFault>
    // The post is of the table, and took no job before.
    requires { IsFresh (P.view post.old) entries.now }

    // The replies to the script were written, for some shortages; no failure was counted, and what
    // was written was handed on.
    ensures done { OnOk result
        (Completes (P.view post.old).is_prompt reader.old reader.new writer.old writer.new) }

    // For each of these replies but `bye`, in order, the desk that gave it was looked at: it was
    // seen, or it wasn't, and so often it wasn't; 2^64 - 1 may stand for more. Before that, desks
    // with the reply's document were looked at only for a settling or for a show of a pending
    // bookmark: one, and one more for each answer that the post gave for it. So it was for a
    // beginning of the replies where the run stopped before the script's end. What a publisher
    // sees is put behind its board's history (`ShowsNext` of `desk_board`).
    ensures shown { NotesRun O.sees result (P.view post.old) (P.view post.new)
        reader.old writer.old writer.new onlooker.old onlooker.new }

    // Where a read failed, or 2^64 - 1 bytes came, all that was read was taken, and the commands
    // that were read whole were answered.
    ensures read { result ≡ Err RunFault.Read → ReadStops R.remaining (P.view post.old).is_prompt
        reader.old reader.new writer.old writer.new }

    // Where a write failed, a beginning of the replies was written.
    ensures write { result ≡ Err RunFault.Write
        → WriteStops (P.view post.old).is_prompt reader.old writer.old writer.new }

    // Where there was no memory to begin with, nothing was read or written.
    ensures no_memory { result ≡ Err RunFault.NoMemory
        → (reader.new ≡ reader.old) × (writer.new ≡ writer.old) }
{
    let Ok(mut desk) = Desk::open(alloc, entries, facts) else {
        return Err(RunFault::NoMemory);
    };
    let Ok(mut line) = KeptLine::new(alloc) else {
        return Err(RunFault::NoMemory);
    };
    let answered = answer_commands(
        rt, alloc, reader, writer, &mut line, &mut desk, post, onlooker, listener,
    );
    // Nobody takes the answers of the jobs that are out.
    desk.stop_all();
    match answered {
        Ok(missed) => Ok(missed),
        Err(Device::Reader) => Err(RunFault::Read),
        Err(Device::Writer) => Err(RunFault::Write),
    }
}
