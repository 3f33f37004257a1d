//! A reader that is read a line at a time.
ghost use Rattle.std.specs.Prelude.{◌≡◌, ◌<◌, ◌≤◌, IfOk, OnOk, OnErr};
ghost use Rattle.text_lines.specs.Lines.{Broken};
ghost use Rattle.script_lines.specs.Ahead.{fresh_reader, IsDrawn};
ghost use Rattle.script_lines.specs.Input.{FailsOrFull};
ghost use Rattle.script_lines.specs.Script.{FindsLine, next_number, StopsInLine, NoEndAmong, ReadsText, TakesInto};

use crate::input::Input;
use crate::kept_line::{KeptLine, LineFound};
use crate::kept_text::KeptText;
use crate::source::{Failed, Source};
use std::alloc::Global;
use std::io::Read;
use std::marker::Model;
use std::sync::ledger::{Blank, Ledger};

/// A reader that is read a line at a time, through a buffer of fixed size. It counts its failures,
/// which are the calls that answered an error, and its bytes, from 0 to 2^64 - 1. A call that a
/// signal interrupted is made again, and is no failure.
#[derive(Drop)]
pub struct CountedReader<R: Read, L: Ledger> {
    source: Source<R, L>,
    input: Input,
    lines: u64,
}

impl<R: Read, L: Ledger> Model for CountedReader<R, L> {
    ghost use Rattle.std.specs.Prelude.{ℕ, ◌<◌, ◌+◌, ◌^◌};
    ghost use Rattle.script_lines.specs.Ahead.{LineReading};
    ghost use Rattle.script_lines.specs.Input.{ahead, bytes_left};

    ghost Value = { LineReading R };

    ghost view = { λ r. record {
      inner = r.source.inner;
      ahead = ahead (R.remaining r.source.inner) r.source.given r.input;
      lines = r.lines;
      given = r.source.given;
      failures = r.source.failures;
    } };

    // Every line that can come has a number below 2^64.
    ghost invariant = { λ r. r.lines + bytes_left r.source.given r.input < 2 ^ 64 };
}

/// What was found where a text begins.
#[derive(Debug, Drop)]
pub enum TextFound {
    /// The text up to its line `end`, and whether that was the last line of the script.
    Ended { text: KeptText, last: bool },
    /// The script ended before a line `end`.
    NoEnd,
}

impl<R: Read, L: Ledger> CountedReader<R, L> {
    /// Counts in a ledger that is new.
    pub fn new(inner: R, blank: Blank) -> CountedReader<R, L>
        requires name { blank.name ≡ L.name }
        requires parts { blank.parts ≡ L.parts }
        requires some { 0 < blank.parts }
        ensures { result ≡ fresh_reader R.remaining inner }
    {
        CountedReader {
            source: Source::new(inner, blank),
            input: Input::new(),
            lines: 0,
        }
    }

    /// The reader, as it is after all that was read of it.
    pub fn into_inner(self) -> R
        ensures { result ≡ self.inner }
    {
        let CountedReader {
            source,
            input: _,
            lines: _,
        } = self;
        source.into_inner()
    }

    /// A script begins here: its lines are counted from 1.
    pub fn begin(&mut self)
        ensures { self.new ≡ record self.old { lines = 0 } }
    {
        self.lines = 0;
    }

    /// How many lines were taken of the script, so the number of the last one.
    pub fn line_number(&self) -> u64
        ensures { result ≡ self.now.lines }
    {
        self.lines
    }

    // Takes the next line, and puts its bytes into the text too.
    fn take_line(&mut self, line: &mut KeptLine, text: &mut KeptText) -> Result<LineFound, Failed>
        ensures found { IfOk result (λ found.
            TakesInto found self.old.ahead self.new.ahead line.new text.old text.new) }
        ensures number { IfOk result (λ found. self.new.lines ≡ next_number found self.old.lines) }
        ensures worked { OnOk result (self.new.failures ≡ self.old.failures) }
        ensures err { OnErr result (StopsInLine self.old.ahead self.new.ahead) }
        ensures failed { OnErr result
            (FailsOrFull self.old.failures self.new.failures self.new.given) }
        ensures drawn { OnErr result (IsDrawn R.remaining self.new) }
    {
        let found = line.read(&mut self.source, &mut self.input, text)?;
        if found != LineFound::End {
            self.lines += 1;
        }
        Ok(found)
    }

    /// Takes the next line, if there is one. It fails where a read failed or 2^64 - 1 bytes came.
    pub fn next_line(&mut self, line: &mut KeptLine) -> Result<LineFound, Failed>
        ensures found { IfOk result (λ found. FindsLine found self.old.ahead self.new.ahead line.new) }
        ensures number { IfOk result (λ found. self.new.lines ≡ next_number found self.old.lines) }
        ensures worked { OnOk result (self.new.failures ≡ self.old.failures) }

        // What came since the last line is no whole line.
        ensures err { OnErr result (StopsInLine self.old.ahead self.new.ahead) }
        ensures failed { OnErr result
            (FailsOrFull self.old.failures self.new.failures self.new.given) }
        ensures drawn { OnErr result (IsDrawn R.remaining self.new) }
    {
        self.take_line(line, &mut KeptText::unkept())
    }

    /// Takes the lines of a text up to the line `end`. It fails where a read failed or 2^64 - 1
    /// bytes came.
    pub fn read_text(&mut self, alloc: Global, line: &mut KeptLine) -> Result<TextFound, Failed>
        ensures text { IfOk result (λ found.
            ReadsText found self.old.ahead self.new.ahead self.old.lines self.new.lines) }
        ensures worked { OnOk result (self.new.failures ≡ self.old.failures) }

        // None of the whole lines that came ends the text.
        ensures err { OnErr result (NoEndAmong Broken self.old.ahead self.new.ahead) }
        ensures failed { OnErr result
            (FailsOrFull self.old.failures self.new.failures self.new.given) }
        ensures drawn { OnErr result (IsDrawn R.remaining self.new) }
    {
        let mut text = KeptText::new(alloc);
        'text: loop {
            let before = text.len();
            let found = self.take_line(line, &mut text)?;
            if found == LineFound::End {
                return Ok(TextFound::NoEnd);
            }
            let last = found == LineFound::Last;
            if line.is_end() {
                text.truncate(before);
                return Ok(TextFound::Ended { text, last });
            }
            if last {
                return Ok(TextFound::NoEnd);
            }
        }
    }
}
