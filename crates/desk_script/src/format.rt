//! The formats of the texts that follow commands.
ghost use Rattle.std.specs.Prelude.{◌≡◌, is_some};
ghost use Rattle.script_lines.specs.Words.{words};
ghost use Rattle.desk_script.specs.Command.{format_of, start_of};

use crate::words::alone;
use script_lines::next_word;

/// The format of the text that follows a command, which tells what is taken from it.
#[derive(Clone, Copy, Debug, PartialEq, Eq)]
pub enum Format {
    /// A rule file, for the document's rule.
    Rule,
    /// A pattern as run-length encoded text, for the start.
    Rle,
    /// A pattern as macrocell text, for the start.
    Macrocell,
}

/// The format of the text that follows a line, if one does.
pub(crate) fn read_format(line: &[u8]) -> Option<Format>
    ensures { result ≡ format_of line.now }
{
    let (word, rest) = next_word(line)?;
    if word == b"rule".as_slice() {
        alone(Format::Rule, rest)
    } else if word == b"start".as_slice() {
        read_start(rest)
    } else {
        None
    }
}

/// Whether a text follows the line.
pub fn opens_text(line: &[u8]) -> bool
    ensures { result ≡ is_some (format_of line.now) }
{
    read_format(line).is_some()
}

// The format of a start.
fn read_start(bytes: &[u8]) -> Option<Format>
    ensures { result ≡ start_of (words bytes.now) }
{
    let (name, rest) = next_word(bytes)?;
    if name == b"rle".as_slice() {
        alone(Format::Rle, rest)
    } else if name == b"mc".as_slice() {
        alone(Format::Macrocell, rest)
    } else {
        None
    }
}
