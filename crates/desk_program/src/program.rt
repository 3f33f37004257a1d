//! What the program does between its start and its ending.
ghost use Rattle.std.specs.Prelude.{◌≡◌, ◌≤◌, IfOk, Result, drop, false, map, string_bytes, vec_len};
ghost use Rattle.desk_words.specs.Words.{Checks};
ghost use Rattle.desk_words.specs.declared.settings.Options.{Options as Chosen};
ghost use Rattle.desk_words.specs.declared.words.OptionFault.{OptionFault as Fault};
ghost use Rattle.job_pool.specs.Pool.{new_pool};
ghost use Rattle.desk_program.specs.Start.{Answers, AreOpenable, Starts};

use crate::devices::{Devices, answer_over};
use crate::ending::{Ending, report, tell};
use crate::progress::{Glimpses, Screen, empty_board, watch};
use crate::shown::{Board, end};
use crate::typed::{TypedReader, TypedWriter, greet};
use desk_board::Viewer;
use desk_server::{Entries, RunFault};
use desk_words::{Options, Workers, check_words};
use job_pool::{NoPool, PoolPost, pool};
use revision_jobs::NoGate;
use std::alloc::{AllocError, Global};
use std::io::{Read, Write};
use std::process::ExitCode;
use std::sync::Wait;
use std::sync::ledger::Ledger;
use std::thread::Threads;
use std::time::Clock;
use std::{io, thread};

// A gate that does nothing for each worker.
fn no_gates(alloc: Global, workers: Workers) -> Result<Vec<NoGate>, AllocError>
    ensures { IfOk result (λ gates. (vec_len gates ≡ workers) × (1 ≤ workers) × (workers ≤ 8)) }
{
    let mut gates = Vec::new(alloc);
    'gates: for made in 0..workers.get() {
        gates.push(NoGate)?;
    }
    Ok(gates)
}

// Answers the script over a pool of workers, and hands the reader and the writer back with how that
// ended.
fn answer_by_workers<T, R, W, L: Ledger, M: Ledger>(
    rt: &T,
    alloc: Global,
    options: Options,
    entries: &Entries,
    devices: Devices<R, W>,
    board: &mut Board<'_, '_, T>,
    screen: &Screen,
) -> (Ending, R, W)
where
    T: Threads + Wait + Clock + Eprint + Sync,
    R: Read + Drop,
    W: Write + Drop,
    requires { AreOpenable devices L.name L.parts M.name M.parts }
    ensures { Answers false R.remaining W.contents devices.reader devices.writer
        result.0 result.1 result.2 }
{
    let no_memory = Ending::Failed(RunFault::NoMemory);
    let Ok(gates) = no_gates(alloc, options.workers) else {
        return (no_memory, devices.reader, devices.writer);
    };
    let facts = options.facts;
    let squares = options.squares;
    let body = |post: &mut PoolPost<'_, T>, devices: Devices<R, W>| -> (Ending, R, W)
        requires post { post.old ≡ new_pool entries.now squares }
        requires devices { AreOpenable devices L.name L.parts M.name M.parts }
        ensures { Answers false R.remaining W.contents devices.reader devices.writer
            result.0 result.1 result.2 }
    {
        // What is asked of the post tells of its limit.
        let _limit = squares;
        answer_over::<_, _, _, L, M, _>(rt, alloc, entries, facts, post, devices, board, screen)
    };
    match pool(rt, alloc, entries, gates, squares.get(), devices, body) {
        Ok(answered) => answered,
        Err(
            NoPool {
                fault,
                input: devices,
            },
        ) => (Ending::without_pool(fault), devices.reader, devices.writer),
    }
}

// Answers the script while a thread looks at the board and shows how far each settling is. Where the
// thread is refused nothing is shown.
fn answer_watched<T, R, W, L: Ledger, M: Ledger>(
    rt: &T,
    alloc: Global,
    options: Options,
    entries: &Entries,
    devices: Devices<R, W>,
    board: &mut Board<'_, '_, T>,
    screen: &Screen,
    viewer: Viewer,
) -> (Ending, R, W)
where
    T: Threads + Wait + Clock + Eprint + Sync,
    R: Read + Drop,
    W: Write + Drop,
    requires { AreOpenable devices L.name L.parts M.name M.parts }
    ensures { Answers false R.remaining W.contents devices.reader devices.writer
        result.0 result.1 result.2 }
{
    thread::scope(
        thread::scope_env(),
        rt,
        move |scope| -> (Ending, R, W)
            requires devices { AreOpenable devices L.name L.parts M.name M.parts }
            ensures { Answers false R.remaining W.contents devices.reader devices.writer
                result.0 result.1 result.2 }
        {
            let _started = scope.spawn(move || watch(rt, screen, viewer));
            let answered = answer_by_workers::<_, _, _, L, M>(
                rt, alloc, options, entries, devices, board, screen,
            );
            screen.close(rt);
            answered
        },
    )
}

// Answers the script, and shows its progress or doesn't. Where there is no memory for a board
// nothing is shown.
fn answer<T, R, W, L: Ledger, M: Ledger>(
    rt: &T,
    alloc: Global,
    options: Options,
    devices: Devices<R, W>,
) -> (Ending, R, W)
where
    T: Threads + Wait + Clock + Eprint + Sync,
    R: Read + Drop,
    W: Write + Drop,
    requires { AreOpenable devices L.name L.parts M.name M.parts }
    ensures { Answers false R.remaining W.contents devices.reader devices.writer
        result.0 result.1 result.2 }
{
    let Ok(entries) = Entries::new(alloc) else {
        let no_memory = Ending::Failed(RunFault::NoMemory);
        return (no_memory, devices.reader, devices.writer);
    };
    let watched = if options.progress {
        empty_board(rt, alloc, &entries)
    } else {
        None
    };
    let screen = Screen::new();
    let Some((publisher, viewer)) = watched else {
        let mut board = None;
        let answered = answer_by_workers::<_, _, _, L, M>(
            rt, alloc, options, &entries, devices, &mut board, &screen,
        );
        end(board);
        return answered;
    };
    let mut board = Some(Glimpses::new(rt, publisher, &screen));
    let answered = answer_watched::<_, _, _, L, M>(
        rt, alloc, options, &entries, devices, &mut board, &screen, viewer,
    );
    end(board);
    answered
}

// Answers the script, with hints on these outputs, if there are any.
fn answer_hinted<T, H: Eprint, R, W, L: Ledger, M: Ledger>(
    rt: &T,
    outputs: Option<&H>,
    alloc: Global,
    options: Options,
    devices: Devices<R, W>,
) -> (Ending, R, W)
where
    T: Threads + Wait + Clock + Eprint + Sync,
    R: Read + Drop,
    W: Write + Drop,
    requires { AreOpenable devices L.name L.parts M.name M.parts }
    ensures { Answers false R.remaining W.contents devices.reader devices.writer
        result.0 result.1 result.2 }
{
    let reader = TypedReader::new(alloc, devices.reader, outputs);
    let writer = TypedWriter::new(devices.writer, outputs);
    let typed = Devices {
        reader,
        writer,
        reader_blank: devices.reader_blank,
        writer_blank: devices.writer_blank,
    };
    let answered = answer::<_, _, _, L, M>(rt, alloc, options, typed);
    let (ending, reader, writer) = answered;
    (ending, reader.into_inner(), writer.into_inner())
}

/// Which of the program's devices are terminals.
#[derive(Clone, Copy, Debug, PartialEq, Eq)]
pub struct Terminals {
    /// Standard input, so that somebody types the script.
    pub input: bool,
    /// Standard error, so that somebody sees how far a settling is.
    pub error: bool,
}

/// Reads the words, and answers the script if they are in order, with the workers and the squares
/// that they choose; or says on the outputs why they are not, and leaves both devices untouched. Where
/// the script is typed it says first on standard error what it waits for, and gives hints there. Where
/// the words ask for progress, or standard error is a terminal, a long settling shows there how far it
/// is. It tells how that ended, gives the exit status, and hands both devices back. Failures of the
/// devices are counted in ledgers of their own, made of the two blanks.
pub fn start<T, H: Print + Eprint, R, W, L: Ledger, M: Ledger>(
    rt: &T,
    outputs: &H,
    alloc: Global,
    words: &io::Result<Vec<String>>,
    terminals: Terminals,
    devices: Devices<R, W>,
) -> (ExitCode, R, W)
where
    T: Threads + Wait + Clock + Eprint + Sync,
    R: Read + Drop,
    W: Write + Drop,
    requires { AreOpenable devices L.name L.parts M.name M.parts }
    // What the words come to is known, and with it how the program ends.
    ensures { (checked : Result Chosen Fault)
        × Checks (λ words. map string_bytes (drop 1 words.items)) words.now checked
        × Starts R.remaining W.contents devices.reader devices.writer checked
        result.0 result.1 result.2 }
{
    match check_words(alloc, words) {
        Ok(options) => {
            greet(outputs, terminals.input);
            let options = Options {
                progress: options.progress || terminals.error,
                ..options
            };
            let hinted = if terminals.input { Some(outputs) } else { None };
            let (ending, reader, writer) = answer_hinted::<_, _, _, _, L, M>(
                rt, hinted, alloc, options, devices,
            );
            (tell(outputs, ending), reader, writer)
        }
        Err(fault) => (
            tell(outputs, report(outputs, &fault)),
            devices.reader,
            devices.writer,
        ),
    }
}
