//! How the program ends.
ghost use Rattle.std.specs.Prelude.{◌≡◌, MatchResult, option_map};
ghost use Rattle.std.specs.Process.{exit_status};
ghost use Rattle.desk_program.specs.Ending.{EndsBy, ending_without, status_of, text_of};

use desk_server::RunFault;
use desk_words::OptionFault;
use job_pool::PoolFault;
use std::process::ExitCode;

/// How the program ends.
#[derive(Clone, Copy, Debug, PartialEq, Eq)]
pub enum Ending {
    /// The script ended or said `quit`, or help or the version was asked for and written.
    Done,
    /// The command line was refused, which was told.
    Refused,
    /// A device failed, or there was no memory for the words, for a table of entries, for a pool or
    /// for a desk.
    Failed(RunFault),
    /// A worker's thread was refused.
    NoWorker,
}

impl Ending {
    /// The ending of a run.
    pub fn of_run(answered: Result<(), RunFault>) -> Ending
        ensures { MatchResult answered (λ _. result ≡ Ending.Done)
            (λ fault. result ≡ Ending.Failed fault) }
    {
        match answered {
            Ok(()) => Ending::Done,
            Err(fault) => Ending::Failed(fault),
        }
    }

    /// The ending where there is no pool.
    pub fn without_pool(fault: PoolFault) -> Ending
        ensures { result ≡ ending_without fault }
    {
        match fault {
            PoolFault::NoMemory => Ending::Failed(RunFault::NoMemory),
            PoolFault::NoWorker => Ending::NoWorker,
        }
    }

    /// The exit status: 0 where all went well, 1 for a device, 2 for the command line, 3 for memory
    /// or a worker.
    pub fn status(self) -> u8
        ensures { result ≡ status_of self }
    {
        match self {
            Ending::Done => 0,
            Ending::Failed(RunFault::Read | RunFault::Write) => 1,
            Ending::Refused => 2,
            Ending::Failed(RunFault::NoMemory) | Ending::NoWorker => 3,
        }
    }

    /// The line for standard error. A refused command line has a text of its own.
    pub fn text(self) -> Option<&'static str>
        ensures { option_map (λ text. text.now) result ≡ text_of self }
    {
        match self {
            Ending::Done | Ending::Refused => None,
            Ending::Failed(RunFault::Read) => Some("desk: reading failed"),
            Ending::Failed(RunFault::Write) => Some("desk: writing failed"),
            Ending::Failed(RunFault::NoMemory) => Some("desk: no memory"),
            Ending::NoWorker => Some("desk: no worker"),
        }
    }
}

/// Writes the help or the version that was asked for to standard output, or says on standard error why
/// the words were refused. Out of memory is told with the program's ending.
pub fn report<R: Print + Eprint>(rt: &R, fault: &OptionFault) -> Ending
    ensures { EndsBy fault.now result }
{
    match fault {
        OptionFault::Help(text) | OptionFault::Version(text) => {
            if rt.print(text.as_str()).is_ok() {
                Ending::Done
            } else {
                Ending::Failed(RunFault::Write)
            }
        }
        OptionFault::Refused(text) => {
            // Where standard error takes nothing, the status alone tells.
            let _ = rt.eprint(text.as_str());
            Ending::Refused
        }
        OptionFault::NoMemory => Ending::Failed(RunFault::NoMemory),
    }
}

/// Says why the program ends, where there is a fault, and gives its exit status.
pub fn tell<R: Eprint>(rt: &R, ending: Ending) -> ExitCode
    ensures { exit_status result ≡ status_of ending }
{
    if let Some(text) = ending.text() {
        // Where standard error takes nothing, the status alone tells.
        let _ = eprintln!(rt; "{text}");
    }
    ExitCode::from(ending.status())
}
