//! A line of a script, of which memory may be wanted to keep all.
ghost use Rattle.std.specs.Prelude.{◌≡◌, ◌≢◌, ℕ, ◌+◌, ◌<◌, ◌≤◌, ◌++◌, ◌∷◌, [], List, length, IfOk, OnOk, OnErr, MatchOption, vec_capacity};
ghost use Rattle.script_lines.specs.Ahead.{TakesBytes};
ghost use Rattle.text_lines.specs.Blanks.{trim};
ghost use Rattle.text_lines.specs.Lines.{NoLineFeed, strip_carriage_return};
ghost use Rattle.script_lines.specs.Input.{ahead, FailsOrFull, IsDrained};
ghost use Rattle.script_lines.specs.KeptText.{GrowsText};
ghost use Rattle.script_lines.specs.Words.{words, squashed};

use crate::input::Input;
use crate::kept_text::KeptText;
use crate::source::{Failed, Source};
use std::alloc::{AllocError, Global};
use std::io::Read;
use std::sync::ledger::Ledger;
use text_lines::{is_blank, trim_end};

// How many bytes are always kept: room for more than any command whose words are fixed.
const ROOM: usize = 64;

// What of a line isn't kept.
#[derive(Clone, Copy, Debug, PartialEq, Eq)]
pub(crate) enum Tail {
    // All is kept.
    Whole,
    // Blanks were lost, and nothing else.
    Blank,
    // More was lost.
    Cut,
}

/// What was found where a line could begin.
#[derive(Clone, Copy, Debug, PartialEq, Eq)]
pub enum LineFound {
    /// A line and its line feed.
    Line,
    /// The last line, which has no line feed: nothing follows.
    Last,
    /// No line, since nothing was left.
    End,
}

/// What a line says, each run of spaces cut to one space, or a beginning of it of 64 bytes or more
/// where memory ran out.
#[derive(Debug, Drop)]
pub struct KeptLine {
    kept: Vec<u8>,
    tail: Tail,
    // The last byte that was taken is a space.
    gap: bool,
    // A carriage return was seen last, and counts only if no line feed follows.
    waits: bool,
    ghost roomy: { 64 ≤ vec_capacity kept },
}

impl KeptLine {
    ghost use Rattle.script_lines.specs.KeptLine.{Kept, Took, Saw, Says, TakesLine, raw_of};
    ghost use Rattle.script_lines.specs.ScriptLine.{is_passed_over, is_end};

    /// The empty line, with room for the lines whose words are fixed.
    pub fn new(alloc: Global) -> Result<KeptLine, AllocError> {
        Ok(KeptLine {
            kept: Vec::with_capacity(alloc, ROOM)?,
            tail: Tail::Whole,
            gap: false,
            waits: false,
        })
    }

    /// Whether the line is blank or a comment.
    pub fn is_passed_over(&self) -> bool
        ensures { (says : List ℕ) → Says self.now says → result ≡ is_passed_over says }
    {
        match self.kept.first() {
            None => true,
            Some(first) => *first == b'#',
        }
    }

    /// Whether the line is just the word `end`.
    pub fn is_end(&self) -> bool
        ensures { (says : List ℕ) → Says self.now says → result ≡ is_end says }
    {
        self.tail != Tail::Cut && self.kept.as_slice() == b"end".as_slice()
    }

    /// Bytes that have the words of the line, or None where memory ran out: then the words with
    /// one space between each two are more than 64 bytes.
    pub fn words(&self) -> Option<&[u8]>
        ensures { (says : List ℕ) → Says self.now says → MatchOption result
            (64 < length (squashed says)) (λ bytes. words bytes.now ≡ words says) }
    {
        if self.tail == Tail::Cut {
            None
        } else {
            Some(&self.kept)
        }
    }

    // A new line begins. The memory of a long line before it is given up.
    fn clear(&mut self)
        ensures { Saw self.new [] }
    {
        self.kept.clear();
        self.kept.shrink_to(ROOM);
        self.tail = Tail::Whole;
        self.gap = false;
        self.waits = false;
    }

    // One more byte that is to be kept.
    fn add(&mut self, byte: u8)
        ensures holds { (bytes : List ℕ) → Kept self.old bytes
            → Kept self.new (bytes ++ byte ∷ []) }
        ensures gap { self.new.gap ≡ self.old.gap }
        ensures waits { self.new.waits ≡ self.old.waits }
    {
        match self.tail {
            Tail::Whole => {
                if self.kept.push(byte).is_err() {
                    self.tail = if is_blank(byte) {
                        Tail::Blank
                    } else {
                        Tail::Cut
                    };
                }
            }
            Tail::Blank => {
                if !is_blank(byte) {
                    self.tail = Tail::Cut;
                }
            }
            Tail::Cut => {}
        }
    }

    // One more byte of the line. Blanks at the front and a space behind a space are passed over.
    fn push(&mut self, byte: u8)
        ensures took { (bytes : List ℕ) → Took self.old bytes → Took self.new (bytes ++ byte ∷ []) }
        ensures waits { self.new.waits ≡ self.old.waits }
    {
        if self.kept.is_empty() && is_blank(byte) {
            return;
        }
        if self.gap && byte == b' ' {
            return;
        }
        self.gap = byte == b' ';
        self.add(byte);
    }

    // The line is at its end: the blanks there go.
    fn close(&mut self)
        ensures { (bytes : List ℕ) → Took self.old bytes → Says self.new (trim bytes) }
    {
        if self.tail != Tail::Cut {
            let len = trim_end(&self.kept).len();
            self.kept.truncate(len);
        }
    }

    // Takes the carriage return that waited.
    fn take_waiting(&mut self)
        ensures { (seen : List ℕ) → Saw self.old seen → Took self.new seen }
    {
        if self.waits {
            self.push(b'\r');
        }
    }

    // The next byte of the line, no line feed.
    fn take_byte(&mut self, byte: u8)
        ensures { (seen : List ℕ) → Saw self.old seen → Saw self.new (seen ++ byte ∷ []) }
    {
        self.take_waiting();
        self.waits = byte == b'\r';
        if byte != b'\r' {
            self.push(byte);
        }
    }

    // The line is at its line feed.
    fn end_line(&mut self)
        ensures { (seen : List ℕ) → Saw self.old seen
            → Says self.new (trim (strip_carriage_return seen)) }
    {
        self.close();
    }

    // The line is at the input's end.
    fn end_input(&mut self)
        ensures { (seen : List ℕ) → Saw self.old seen → Says self.new (trim seen) }
    {
        self.take_waiting();
        self.close();
    }

    /// Reads the next line, and puts its bytes with its end into the text too.
    pub(crate) fn read<R: Read, L: Ledger>(
        &mut self,
        reader: &mut Source<R, L>,
        input: &mut Input,
        text: &mut KeptText,
    ) -> Result<LineFound, Failed>
        ensures line { IfOk result (λ found. (seen : List ℕ) × NoLineFeed seen
            × GrowsText text.old text.new (raw_of found seen)
            × TakesLine found (ahead (R.remaining reader.old.inner) reader.old.given input.old)
            (ahead (R.remaining reader.new.inner) reader.new.given input.new) seen self.new) }
        ensures worked { OnOk result (reader.new.failures ≡ reader.old.failures) }
        ensures err { OnErr result ((seen : List ℕ) × NoLineFeed seen
            × TakesBytes (ahead (R.remaining reader.old.inner) reader.old.given input.old)
            (ahead (R.remaining reader.new.inner) reader.new.given input.new) seen) }
        ensures failed { OnErr result (IsDrained input.new.unread
            × FailsOrFull reader.old.failures reader.new.failures reader.new.given) }
    {
        self.clear();
        let mut empty = true;
        while let Some(byte) = input.next(reader)? {
            text.push(byte);
            if byte == b'\n' {
                self.end_line();
                return Ok(LineFound::Line);
            }
            self.take_byte(byte);
            empty = false;
        }
        self.end_input();
        Ok(if empty {
            LineFound::End
        } else {
            LineFound::Last
        })
    }
}
