//! Words, and the beginnings and ends of the texts about them.
use desk_words::{OptionFault, Options, check_words, given_words, options};
use std::alloc::Global;
use std::env::FillError;
use std::fmt::Debug;
use std::process::Abort;
use std::rt::Env;

// The words that a program is started with, as bytes.
#[derive(Drop)]
struct Started {
    words: &'static [&'static [u8]],
}

impl Env for Started {
    fn arg(&self, i: usize, buf: &mut [u8]) -> Result<usize, FillError> {
        let Some(word) = self.words.get(i) else {
            return Err(FillError::NotPresent);
        };
        if word.len() > buf.len() {
            return Err(FillError::TooLong);
        }
        buf[..word.len()].copy_from_slice(word);
        Ok(word.len())
    }

    fn var(&self, _name: &str, _buf: &mut [u8]) -> Result<usize, FillError> {
        Err(FillError::NotPresent)
    }

    fn var_at(&self, _i: usize, _buf: &mut [u8]) -> Result<usize, FillError> {
        Err(FillError::NotPresent)
    }
}

// What is said of words.
#[derive(Clone, Copy, Debug, PartialEq, Eq)]
enum Verdict {
    // They are read, and choose so many workers, facts and squares.
    Chosen(u32, u32, u32),
    // So many, and progress.
    Watched(u32, u32, u32),
    Help,
    // The line that says which version this is.
    Version,
    // An unknown word.
    Unknown,
    // A word with a value that it doesn't take.
    Value,
    // A number that is none, or too few or too many.
    Number,
    // The option a second time.
    Again,
    // Progress a second time.
    AgainProgress,
    // Progress with a value.
    ValueOfProgress,
    // The option without its number.
    Missing,
    // A word that is no UTF-8.
    NoText,
    Other,
}

const END: &str = "\n\nFor more information, try '--help'.\n";

const OPTIONS: &str =
    "\n\nUsage: desk [OPTIONS]\n\nOptions:\n      --workers <N>  How many workers compute, from 1 to 8 [default: 2]\n      --facts <N>    How many results of steps a desk may keep, with their patterns, from 1 to 4096 [default: 64]\n      --squares <N>  How many squares the engine of a worker may hold, from 64 to 16777216. A square takes about 48 bytes: 4194304 take about 200 MB [default: 4194304]\n      --progress     While a settling takes long, shows on standard error how far it is; so it is without the option where that is a terminal\n  -h, --help         Print help\n  -V, --version      Print version\n\nCommands of a script,";

const VERSION: &str = "desk 1.0.0 (proved)\n";

fn is_help(text: &str) -> bool {
    text.contains(OPTIONS)
        && text.contains("\n  mark G window X Y W H ")
        && text.contains("\n\nExit status:\n  0  ")
        && text.ends_with("echo show 1; } | desk\n")
}

fn refusal(text: &str) -> Verdict {
    if !text.ends_with(END) {
        Verdict::Other
    } else if text.starts_with("error: unexpected argument '") {
        Verdict::Unknown
    } else if text.starts_with("error: unexpected value 'all' for '--") {
        Verdict::Value
    } else if text.starts_with("error: invalid value '") {
        Verdict::Number
    } else if text.starts_with("error: the argument '--")
        && text.contains(" <N>' cannot be used multiple")
    {
        Verdict::Again
    } else if text.starts_with("error: the argument '--progress' cannot be used multiple") {
        Verdict::AgainProgress
    } else if text.starts_with("error: unexpected value 'yes' for '--progress' found;") {
        Verdict::ValueOfProgress
    } else if text.starts_with("error: a value is required for '--")
        && text.contains(" <N>' but none")
    {
        Verdict::Missing
    } else if text.starts_with("error: invalid UTF-8 was detected in one or more arguments") {
        Verdict::NoText
    } else {
        Verdict::Other
    }
}

fn said(answer: &Result<Options, OptionFault>) -> Verdict {
    match answer {
        Ok(read) if read.progress => Verdict::Watched(
            read.workers.get(),
            read.facts.get(),
            read.squares.get(),
        ),
        Ok(read) => Verdict::Chosen(read.workers.get(), read.facts.get(), read.squares.get()),
        Err(OptionFault::Help(text)) if is_help(text.as_str()) => Verdict::Help,
        Err(OptionFault::Version(text)) if text.as_str() == VERSION => Verdict::Version,
        Err(OptionFault::Refused(text)) => refusal(text.as_str()),
        Err(_) => Verdict::Other,
    }
}

fn same<T: PartialEq + Debug, A: Debug>(rt: &impl Abort, found: &T, wanted: &T, at: &A) {
    assert_eq!(rt; *found, *wanted, "at {at:?}");
}

const DEFAULT: Verdict = Verdict::Chosen(2, 64, 4_194_304);

struct Row {
    words: &'static [&'static str],
    said: Verdict,
}

const READ: &[Row] = &[
    Row {
        words: &[],
        said: DEFAULT,
    },
    Row {
        words: &["--"],
        said: DEFAULT,
    },
    Row {
        words: &["-h"],
        said: Verdict::Help,
    },
    Row {
        words: &["--help"],
        said: Verdict::Help,
    },
    Row {
        words: &["-h", "work"],
        said: Verdict::Help,
    },
    Row {
        words: &["work", "-h"],
        said: Verdict::Unknown,
    },
    Row {
        words: &["help"],
        said: Verdict::Unknown,
    },
    Row {
        words: &[""],
        said: Verdict::Unknown,
    },
    Row {
        words: &["-V"],
        said: Verdict::Version,
    },
    Row {
        words: &["--version"],
        said: Verdict::Version,
    },
    Row {
        words: &["-V", "work"],
        said: Verdict::Version,
    },
    Row {
        words: &["work", "--version"],
        said: Verdict::Unknown,
    },
    Row {
        words: &["-v"],
        said: Verdict::Unknown,
    },
    Row {
        words: &["version"],
        said: Verdict::Unknown,
    },
    Row {
        words: &["--version=all"],
        said: Verdict::Value,
    },
    Row {
        words: &["--version", "--help"],
        said: Verdict::Version,
    },
    Row {
        words: &["--help", "--version"],
        said: Verdict::Help,
    },
    Row {
        words: &["-hV"],
        said: Verdict::Help,
    },
    Row {
        words: &["--worker=2"],
        said: Verdict::Unknown,
    },
    Row {
        words: &["--help=all"],
        said: Verdict::Value,
    },
    Row {
        words: &["--squares", "64"],
        said: Verdict::Chosen(2, 64, 64),
    },
    Row {
        words: &["--squares=16777216"],
        said: Verdict::Chosen(2, 64, 16_777_216),
    },
    Row {
        words: &["--squares", "000100"],
        said: Verdict::Chosen(2, 64, 100),
    },
    Row {
        words: &["--workers", "1"],
        said: Verdict::Chosen(1, 64, 4_194_304),
    },
    Row {
        words: &["--workers=8"],
        said: Verdict::Chosen(8, 64, 4_194_304),
    },
    Row {
        words: &["--facts=1"],
        said: Verdict::Chosen(2, 1, 4_194_304),
    },
    Row {
        words: &["--facts", "4096"],
        said: Verdict::Chosen(2, 4096, 4_194_304),
    },
    Row {
        words: &["--squares=65", "--workers", "3", "--facts=7"],
        said: Verdict::Chosen(3, 7, 65),
    },
    Row {
        words: &["--facts", "9", "--squares", "66", "--workers=4"],
        said: Verdict::Chosen(4, 9, 66),
    },
    Row {
        words: &["--progress"],
        said: Verdict::Watched(2, 64, 4_194_304),
    },
    Row {
        words: &["--workers", "3", "--progress", "--facts=7"],
        said: Verdict::Watched(3, 7, 4_194_304),
    },
    Row {
        words: &["--progress", "--squares=65"],
        said: Verdict::Watched(2, 64, 65),
    },
    Row {
        words: &["--progress", "--progress"],
        said: Verdict::AgainProgress,
    },
    Row {
        words: &["--progress=yes"],
        said: Verdict::ValueOfProgress,
    },
    Row {
        words: &["--progress", "yes"],
        said: Verdict::Unknown,
    },
    Row {
        words: &["--squares", "63"],
        said: Verdict::Number,
    },
    Row {
        words: &["--squares=16777217"],
        said: Verdict::Number,
    },
    Row {
        words: &["--squares", "99999999999999999999"],
        said: Verdict::Number,
    },
    Row {
        words: &["--squares", "x"],
        said: Verdict::Number,
    },
    Row {
        words: &["--squares="],
        said: Verdict::Number,
    },
    Row {
        words: &["--workers", "0"],
        said: Verdict::Number,
    },
    Row {
        words: &["--workers=9"],
        said: Verdict::Number,
    },
    Row {
        words: &["--facts=0"],
        said: Verdict::Number,
    },
    Row {
        words: &["--facts", "4097"],
        said: Verdict::Number,
    },
    Row {
        words: &["--squares", "64", "--squares", "65"],
        said: Verdict::Again,
    },
    Row {
        words: &["--workers=2", "--facts=64", "--workers=2"],
        said: Verdict::Again,
    },
    Row {
        words: &["--squares"],
        said: Verdict::Missing,
    },
    Row {
        words: &["--workers"],
        said: Verdict::Missing,
    },
    Row {
        words: &["--squares", "64", "-h"],
        said: Verdict::Help,
    },
    Row {
        words: &["--workers=3", "--progress", "--version"],
        said: Verdict::Version,
    },
    Row {
        words: &["--squares", "63", "--version"],
        said: Verdict::Version,
    },
    Row {
        words: &["--workers=9", "-h"],
        said: Verdict::Help,
    },
    Row {
        words: &["--workers=9", "--facts", "0", "work"],
        said: Verdict::Unknown,
    },
    Row {
        words: &["--workers", "--version"],
        said: Verdict::Missing,
    },
];

fn reads(rt: &impl Abort, alloc: Global, row: &Row) {
    same(rt, &said(&options(alloc, row.words)), &row.said, &row.words);
}

#[test]
fn words_are_read(rt: HostRuntime) {
    let alloc = rt.alloc();
    for row in READ {
        reads(&rt, alloc, row);
    }
}

fn starts(rt: &impl Abort, alloc: Global, words: &'static [&'static [u8]], wanted: Verdict) {
    let given = given_words(&(Started { words }, alloc));
    same(rt, &said(&check_words(alloc, &given)), &wanted, &words);
}

#[test]
fn words_come_from_the_start(rt: HostRuntime) {
    let alloc = rt.alloc();
    starts(&rt, alloc, &[b"desk"], DEFAULT);
    starts(&rt, alloc, &[b"desk", b"-h"], Verdict::Help);
    starts(&rt, alloc, &[b"./desk", b"--version"], Verdict::Version);
    starts(&rt, alloc, &[b"desk", b"work"], Verdict::Unknown);
    let least: &[&[u8]] = &[b"desk", b"--squares", b"64"];
    starts(&rt, alloc, least, Verdict::Chosen(2, 64, 64));
    let most: &[&[u8]] = &[b"./desk", b"--workers=8"];
    starts(&rt, alloc, most, Verdict::Chosen(8, 64, 4_194_304));
    starts(&rt, alloc, &[], DEFAULT);
    starts(&rt, alloc, &[b"desk", b"\xff"], Verdict::NoText);
}
