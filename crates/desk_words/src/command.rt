//! The command that the words belong to, as `clap` knows it.
ghost use Rattle.std.specs.Prelude.{◌≡◌, ℕ, IfOk, MatchResult, map};
ghost use Rattle.clap.specs.Words.{FailsBy, app_of, fault_of, first_value, found_of, kind_of};
ghost use Rattle.clap.specs.Words.{matches_of, one_text, rows_of};
ghost use Rattle.desk_words.specs.Command.{Chooses, IsOption, IsRefusedBy, ReadsNumber, Says, desk};
ghost use Rattle.desk_words.specs.Command.{progress_rule, setting_rule};
ghost use Rattle.desk_words.specs.Setting.{least_of, most_of, name_of, number_of, progress_name};
ghost use Rattle.desk_words.specs.Setting.{usual_options};

use crate::bounded::Bounded;
use crate::settings::{Options, Setting};
use crate::version::VERSION;
use clap::error::ErrorKind;
use clap::{Arg, ArgAction, ArgMatches, Command, Error};
use script_help::command_list;
use std::alloc::{AllocError, Global};
use std::convert::AsStr;

const ABOUT: &str =
    "Evolves a cellular automaton as a script on standard input says, and replies on standard output";

/// The name of the option for progress.
const PROGRESS: &str = "progress";

const PROGRESS_HELP: &str =
    "While a settling takes long, shows on standard error how far it is; so it is without the option where that is a terminal";

// The option of a setting.
fn option(alloc: Global, setting: Setting) -> Arg<'static>
    ensures { IsOption (setting_rule setting) result }
{
    Arg::new(alloc, setting.name())
        .long(setting.name())
        .value_name("N")
        .action(ArgAction::Set)
        .help(setting.help())
}

// The option for progress.
fn progress_option(alloc: Global) -> Arg<'static>
    ensures { IsOption progress_rule result }
{
    Arg::new(alloc, PROGRESS)
        .long(PROGRESS)
        .action(ArgAction::SetTrue)
        .help(PROGRESS_HELP)
}

fn command<'a>(alloc: Global) -> Result<Command<'a>, AllocError>
    ensures { IfOk result (λ command. app_of command ≡ desk) }
{
    Command::new(alloc, "desk")
        .version(VERSION)
        .about(ABOUT)
        .after_help(command_list())
        .no_binary_name(true)
        .arg(option(alloc, Setting::Workers))?
        .arg(option(alloc, Setting::Facts))?
        .arg(option(alloc, Setting::Squares))?
        .arg(progress_option(alloc))
}

// What `clap` finds in the words.
fn parsed<'a, S: AsStr>(alloc: Global, words: &'a [S]) -> Result<ArgMatches<'a>, Error>
    ensures faults { FailsBy (fault_of desk (map S.text words.now)) result }
    ensures rows { IfOk result
        (λ m. rows_of (found_of m) ≡ matches_of desk (map S.text words.now)) }
{
    command(alloc)?.try_get_matches_from(words)
}

// Why a text is refused as the number of a setting.
fn no_number(
    alloc: Global,
    setting: Setting,
    text: &str,
    least: u32,
    most: u32,
) -> Result<Error, AllocError>
    ensures { IfOk result (λ error. kind_of error ≡ ErrorKind.ValueValidation) }
{
    let name = setting.name();
    let reason = format!(in alloc;
        "invalid value '{text}' for '--{name} <N>': it takes a number from {least} to {most}"
    )?;
    command(alloc)?.error(ErrorKind::ValueValidation, reason.as_str())
}

// The number of a setting: that of the words, or else the usual one.
fn number<const LEAST: u32, const MOST: u32>(
    alloc: Global,
    matches: &ArgMatches<'_>,
    setting: Setting,
    usual: Bounded<LEAST, MOST>,
) -> Result<Bounded<LEAST, MOST>, Error>
    requires range { (LEAST ≡ least_of setting) × (MOST ≡ most_of setting) }
    requires usual { usual ≡ number_of setting usual_options }
    ensures { ReadsNumber setting (first_value (found_of matches.now) (name_of setting)) result }
{
    let Some(text) = matches.get_str(setting.name()) else {
        return Ok(usual);
    };
    match text.parse() {
        Ok(number) => Ok(number),
        Err(_) => Err(no_number(alloc, setting, text, LEAST, MOST)?),
    }
}

// Whether progress is asked for.
fn asks_for_progress(matches: &ArgMatches<'_>) -> bool
    ensures { Says (one_text (found_of matches.now) progress_name) result }
{
    matches.get_flag(PROGRESS)
}

/// Reads the words behind the program's name.
///
/// The options are the settings, progress, help and the version. An error is a request for help or the
/// version, a refused word with the text for the user, or 'out of memory'.
pub(crate) fn read<'a, S: AsStr>(alloc: Global, words: &'a [S]) -> Result<Options, Error>
    ensures { MatchResult result (Chooses (map S.text words.now))
        (IsRefusedBy (map S.text words.now)) }
{
    let matches = parsed(alloc, words)?;
    let usual = Options::default();
    Ok(Options {
        workers: number(alloc, &matches, Setting::Workers, usual.workers)?,
        facts: number(alloc, &matches, Setting::Facts, usual.facts)?,
        squares: number(alloc, &matches, Setting::Squares, usual.squares)?,
        progress: asks_for_progress(&matches),
    })
}

/// Why a word that is no UTF-8 is refused: as an unknown word is.
pub(crate) fn no_text(alloc: Global) -> Result<Error, AllocError>
    ensures { IfOk result (λ error. kind_of error ≡ ErrorKind.UnknownArgument) }
{
    command(alloc)?.error(
        ErrorKind::UnknownArgument,
        "invalid UTF-8 was detected in one or more arguments",
    )
}
