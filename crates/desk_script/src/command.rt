//! Commands that no text follows.
ghost use Rattle.std.specs.Prelude.{◌≡◌, ◌⊎◌, IfOk, IsSome, OnErr, false, true};
ghost use Rattle.std.specs.Option.{option_map};
ghost use Rattle.script_lines.specs.Words.{words};
ghost use Rattle.desk_script.specs.Command.{command_of, command_by, edit_by, looking_by, one_count};
ghost use Rattle.desk_script.specs.Heard.{LineCanLackMemory};

use crate::edits::read_edit;
use crate::words::{alone, one_count};
use schedule::Edit;
use script_lines::next_word;
use std::alloc::{AllocError, Global};

/// A command that no text follows.
#[derive(Drop)]
pub enum Command {
    /// The document is to be changed.
    Edit(Edit),
    /// All texts are to be computed.
    Settle,
    /// Jobs for what isn't known are to be sent, and their answers not waited for.
    Work,
    /// The text of the bookmark of this id is to be shown.
    Show { id: u64 },
    /// The same, as far as it is known: nothing is computed for it.
    Peek { id: u64 },
    /// Answers that have come are to be collected and further jobs sent, and none is waited for.
    Poll,
    /// What the document has is to be listed.
    List,
    /// The document is to be written as a script that makes it anew.
    Script,
    /// The commands of a script are to be listed.
    Help,
    /// The script ends.
    Quit,
}

/// The command of a line, or None where it has none.
pub(crate) fn read_command(alloc: Global, line: &[u8]) -> Result<Option<Command>, AllocError>
    ensures ok { IfOk result (λ command. command ≡ command_of line.now) }
    ensures err { OnErr result (LineCanLackMemory (command_of line.now)) }
{
    let Some((word, rest)) = next_word(line) else {
        return Ok(None);
    };
    read_by(alloc, word, rest)
}

/// Whether the line is a command that no text follows. It says no where memory runs out for that command.
pub fn is_command(alloc: Global, line: &[u8]) -> bool
    ensures yes { result ≡ true → IsSome (command_of line.now) }
    ensures no { result ≡ false
        → (command_of line.now ≡ None) ⊎ LineCanLackMemory (command_of line.now) }
{
    match read_command(alloc, line) {
        Ok(command) => command.is_some(),
        Err(_) => false,
    }
}

// The command of a first word and those behind it.
fn read_by(alloc: Global, word: &[u8], rest: &[u8]) -> Result<Option<Command>, AllocError>
    ensures ok { IfOk result (λ command. command ≡ command_by word.now (words rest.now)) }
    ensures err { OnErr result (LineCanLackMemory (command_by word.now (words rest.now))) }
{
    if word == b"settle".as_slice() {
        Ok(alone(Command::Settle, rest))
    } else if word == b"work".as_slice() {
        Ok(alone(Command::Work, rest))
    } else if word == b"show".as_slice() {
        Ok(read_show(rest))
    } else if word == b"quit".as_slice() {
        Ok(alone(Command::Quit, rest))
    } else {
        read_looking(alloc, word, rest)
    }
}

fn read_show(rest: &[u8]) -> Option<Command>
    ensures { result ≡ option_map Command.Show (one_count (words rest.now)) }
{
    let id = one_count(rest)?;
    Some(Command::Show { id })
}

// The command of any other first word and those behind it.
fn read_looking(alloc: Global, word: &[u8], rest: &[u8]) -> Result<Option<Command>, AllocError>
    ensures ok { IfOk result (λ command. command ≡ looking_by word.now (words rest.now)) }
    ensures err { OnErr result (LineCanLackMemory (looking_by word.now (words rest.now))) }
{
    if word == b"peek".as_slice() {
        Ok(read_peek(rest))
    } else if word == b"poll".as_slice() {
        Ok(alone(Command::Poll, rest))
    } else if word == b"list".as_slice() {
        Ok(alone(Command::List, rest))
    } else if word == b"script".as_slice() {
        Ok(alone(Command::Script, rest))
    } else if word == b"help".as_slice() {
        Ok(alone(Command::Help, rest))
    } else {
        read_edit_command(alloc, word, rest)
    }
}

fn read_peek(rest: &[u8]) -> Option<Command>
    ensures { result ≡ option_map Command.Peek (one_count (words rest.now)) }
{
    let id = one_count(rest)?;
    Some(Command::Peek { id })
}

// The command that is an edit. Each edit can run out of memory.
fn read_edit_command(alloc: Global, word: &[u8], rest: &[u8]) -> Result<Option<Command>, AllocError>
    ensures ok { IfOk result (λ command. command
        ≡ option_map Command.Edit (edit_by word.now (words rest.now))) }
    ensures err { OnErr result
        (LineCanLackMemory (option_map Command.Edit (edit_by word.now (words rest.now)))) }
{
    match read_edit(alloc, word, rest)? {
        Some(edit) => Ok(Some(Command::Edit(edit))),
        None => Ok(None),
    }
}
