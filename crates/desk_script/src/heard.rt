//! The next thing that a script asks.
ghost use Rattle.std.specs.Prelude.{◌≡◌, ◌+◌, ◌<◌, ◌≤◌, [], IfOk, OnOk, OnErr, false};
ghost use Rattle.script_lines.specs.Ahead.{Ahead};
ghost use Rattle.script_lines.specs.Script.{LineTaken};
ghost use Rattle.desk_script.specs.Command.{command_of};
ghost use Rattle.desk_script.specs.Asks.{Between, InText, asked_by};
ghost use Rattle.desk_script.specs.Heard.{IsReadAs, Hears, BreaksOff, ReadFails};

use crate::command::read_command;
use crate::fault::ScriptFault;
use crate::format::{Format, read_format};
use crate::request::Request;
use script_lines::{CountedReader, Failed, KeptLine, LineFound, TextFound};
use std::alloc::Global;
use std::io::Read;
use std::sync::ledger::Ledger;

/// What was heard, if anything was asked, and whether nothing follows.
#[derive(Drop)]
pub struct Heard {
    pub request: Option<Request>,
    pub last: bool,
}

// What the words of a line ask, which no text follows.
fn read_request(alloc: Global, words: &[u8], number: u64) -> Request
    ensures { IsReadAs result (asked_by number (command_of words.now)) }
{
    match read_command(alloc, words) {
        Ok(Some(command)) => Request::Obey(command),
        Ok(None) => Request::Refuse(ScriptFault::BadCommand(number)),
        Err(_) => Request::NoMemory,
    }
}

// What was heard of the text of this format whose command stands on the line that was taken last.
fn listen_text<R: Read, L: Ledger>(
    alloc: Global,
    reader: &mut CountedReader<R, L>,
    line: &mut KeptLine,
    format: Format,
) -> Result<Heard, Failed>
    ensures heard { IfOk result (λ heard. Hears reader.old.ahead reader.new.ahead
        (InText reader.old.lines format []) heard.request heard.last
        (reader.old.lines + 1) (reader.new.lines + 1)) }
    ensures same { OnOk result (reader.new.ahead.room ≤ reader.old.ahead.room) }
    ensures worked { OnOk result (reader.new.failures ≡ reader.old.failures) }
    ensures err { OnErr result (BreaksOff reader.old.ahead reader.new.ahead
        (InText reader.old.lines format []) (reader.old.lines + 1)) }
    ensures failed { OnErr result (ReadFails R.remaining reader.old reader.new) }
{
    let number = reader.line_number();
    match reader.read_text(alloc, line)? {
        TextFound::NoEnd => Ok(Heard {
            request: Some(Request::Refuse(ScriptFault::NoEnd(number))),
            last: true,
        }),
        TextFound::Ended { text, last } => Ok(Heard {
            request: Some(Request::Take { format, text }),
            last,
        }),
    }
}

// What was heard of the line that was taken last, with its text.
fn listen_line<R: Read, L: Ledger>(
    alloc: Global,
    reader: &mut CountedReader<R, L>,
    line: &mut KeptLine,
    last: bool,
) -> Result<Heard, Failed>
    ensures heard { IfOk result (λ heard. (start : Ahead)
        → LineTaken last start reader.old.ahead line.old
        → Hears start reader.new.ahead Between heard.request heard.last
        reader.old.lines (reader.new.lines + 1)) }
    ensures same { OnOk result (reader.new.ahead.room ≤ reader.old.ahead.room) }
    ensures worked { OnOk result (reader.new.failures ≡ reader.old.failures) }
    ensures err { OnErr result ((start : Ahead) → LineTaken last start reader.old.ahead line.old
        → BreaksOff start reader.new.ahead Between reader.old.lines) }
    ensures failed { OnErr result (ReadFails R.remaining reader.old reader.new) }
{
    let number = reader.line_number();
    if line.is_passed_over() {
        return Ok(Heard {
            request: None,
            last,
        });
    }
    let Some(words) = line.words() else {
        return Ok(Heard {
            request: Some(Request::NoMemory),
            last,
        });
    };
    let Some(format) = read_format(words) else {
        let request = read_request(alloc, words, number);
        return Ok(Heard {
            request: Some(request),
            last,
        });
    };
    if last {
        return Ok(Heard {
            request: Some(Request::Refuse(ScriptFault::NoEnd(number))),
            last,
        });
    }
    listen_text(alloc, reader, line, format)
}

/// What stands on the next line, with its text. At the end of the script nothing is asked.
pub fn listen<R: Read, L: Ledger>(
    alloc: Global,
    reader: &mut CountedReader<R, L>,
    line: &mut KeptLine,
) -> Result<Heard, Failed>
    ensures heard { IfOk result (λ heard. Hears reader.old.ahead reader.new.ahead Between
        heard.request heard.last (reader.old.lines + 1) (reader.new.lines + 1)) }
    ensures falls { IfOk result (λ heard. heard.last ≡ false
        → reader.new.ahead.room < reader.old.ahead.room) }
    ensures worked { OnOk result (reader.new.failures ≡ reader.old.failures) }
    ensures err { OnErr result
        (BreaksOff reader.old.ahead reader.new.ahead Between (reader.old.lines + 1)) }
    ensures failed { OnErr result (ReadFails R.remaining reader.old reader.new) }
{
    match reader.next_line(line)? {
        LineFound::Line => listen_line(alloc, reader, line, false),
        LineFound::Last => listen_line(alloc, reader, line, true),
        LineFound::End => Ok(Heard {
            request: None,
            last: true,
        }),
    }
}
