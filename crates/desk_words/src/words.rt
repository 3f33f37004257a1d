//! What the words of the command line come to.
ghost use Rattle.std.specs.Prelude.{◌≡◌, IfErr, IfOk, drop, map, string_bytes};
ghost use Rattle.clap.specs.Words.{kind_of};
ghost use Rattle.desk_words.specs.Words.{Checks, ReadsWords};
ghost use Rattle.desk_words.specs.Command.{Chooses, ChoosesSome};
ghost use Rattle.desk_words.specs.Fault.{IsHelp, IsRefusal};
ghost use Rattle.desk_words.specs.Told.{IsToldAs};

use crate::command::{no_text, read};
use crate::help::STATUSES_AND_EXAMPLE;
use crate::settings::Options;
use clap::Error;
use clap::error::ErrorKind;
use std::alloc::Global;
use std::convert::AsStr;
use std::rt::Env;
use std::{env, io};

/// Why the words start no run.
#[derive(Debug, Drop)]
pub enum OptionFault {
    /// Help was asked for: its text.
    Help(String),
    /// The version was asked for: the line that says it.
    Version(String),
    /// The words are refused: the text for the user.
    Refused(String),
    /// There was no memory for the words, or for a text about them.
    NoMemory,
}

// The help that `clap` says, which ends with the commands of a script, and what stands behind them.
fn help(alloc: Global, said: &str) -> OptionFault
    ensures { IsHelp result }
{
    match format!(in alloc; "{said}\n{STATUSES_AND_EXAMPLE}") {
        Ok(text) => OptionFault::Help(text),
        Err(_) => OptionFault::NoMemory,
    }
}

// What an error of `clap` says to the user.
fn fault_of(alloc: Global, error: &Error) -> OptionFault
    ensures { IsToldAs (kind_of error.now) result }
{
    if error.kind() == ErrorKind::OutOfMemory {
        return OptionFault::NoMemory;
    }
    let Ok(text) = format!(in alloc; "{error}") else {
        return OptionFault::NoMemory;
    };
    match error.kind() {
        ErrorKind::DisplayHelp => help(alloc, text.as_str()),
        ErrorKind::DisplayVersion => OptionFault::Version(text),
        _ => OptionFault::Refused(text),
    }
}

/// Reads the words behind the program's name.
pub fn options<S: AsStr>(alloc: Global, words: &[S]) -> Result<Options, OptionFault>
    ensures reads { ReadsWords (map S.text words.now) result }
    ensures chosen { IfOk result (Chooses (map S.text words.now)) }
    ensures refused { ChoosesSome (map S.text words.now)
        → IfErr result (λ fault. fault ≡ OptionFault.NoMemory) }
{
    match read(alloc, words) {
        Ok(options) => Ok(options),
        Err(error) => Err(fault_of(alloc, &error)),
    }
}

// What is said of a word that is no UTF-8.
fn refused(alloc: Global) -> OptionFault
    ensures { IsRefusal result }
{
    match no_text(alloc) {
        Ok(error) => fault_of(alloc, &error),
        Err(_) => OptionFault::NoMemory,
    }
}

/// The words that a program is started with. One that is no UTF-8 is an error.
pub fn given_words<R: Env + AllocGlobal>(rt: &R) -> io::Result<Vec<String>> {
    Ok(env::args(rt)?.collect(rt.alloc())?)
}

// The words behind the program's name.
fn behind_name(words: &[String]) -> &[String]
    ensures { result.now ≡ drop 1 words.now }
{
    match words.get(1..) {
        Some(behind) => behind,
        None => words,
    }
}

/// Reads the words that a program was started with, its name first, or refuses them where one is no
/// UTF-8.
pub fn check_words(alloc: Global, given: &io::Result<Vec<String>>) -> Result<Options, OptionFault>
    ensures { Checks (λ words. map string_bytes (drop 1 words.items)) given.now result }
{
    match given {
        Ok(words) => options(alloc, behind_name(words.as_slice())),
        Err(error) if error.kind() == io::ErrorKind::OutOfMemory => Err(OptionFault::NoMemory),
        Err(_) => Err(refused(alloc)),
    }
}
