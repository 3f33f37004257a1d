//! A writer whose failures are counted.
ghost use Rattle.std.specs.Prelude.{true, false, ◌≡◌, ◌+◌, ◌<◌, OnOk, OnErr, decimal};
ghost use Rattle.std.specs.Fmt.{signed_decimal};
ghost use Rattle.std.specs.Io.KnownBytes.{Keeps};
ghost use Rattle.script_lines.specs.Faults.{Wrote};
ghost use Rattle.script_lines.specs.Counted.{fresh_writer};

use crate::failures::Failures;
use crate::source::Failed;
use itoa::Buffer;
use std::io::{ErrorKind, Write};
use std::marker::Model;
use std::sync::ledger::{Blank, Ledger};

/// A writer with the count of its failures, which are the calls that answered an error and the
/// writes that took nothing. A call that a signal interrupted is made again, and is no failure.
#[derive(Drop)]
pub struct CountedWriter<W: Write, L: Ledger> {
    inner: W,
    failures: Failures<L>,
    // Whether all that was written was handed on.
    flushed: bool,
}

impl<W: Write, L: Ledger> Model for CountedWriter<W, L> {
    ghost use Rattle.script_lines.specs.Counted.{CountedWriting};

    ghost Value = { CountedWriting W };

    ghost view = { λ w. record {
      inner = w.inner;
      contents = W.contents w.inner;
      failures = w.failures;
      flushed = w.flushed;
    } };
}

impl<W: Write, L: Ledger> CountedWriter<W, L> {
    /// Counts in a ledger that is new.
    pub fn new(inner: W, blank: Blank) -> CountedWriter<W, L>
        requires name { blank.name ≡ L.name }
        requires parts { blank.parts ≡ L.parts }
        requires some { 0 < blank.parts }
        ensures { result ≡ fresh_writer W.contents inner }
    {
        CountedWriter {
            inner,
            failures: Failures::none(blank),
            flushed: true,
        }
    }

    /// The writer, as it is after all that was written.
    pub fn into_inner(self) -> W
        ensures inner { result ≡ self.inner }
        ensures contents { W.contents result ≡ self.contents }
    {
        let CountedWriter {
            inner,
            failures: _,
            flushed: _,
        } = self;
        inner
    }
}

impl<W: Write, L: Ledger> CountedWriter<W, L> {
    /// Writes all of the bytes, or a beginning of them and fails.
    pub fn tell(&mut self, bytes: &[u8]) -> Result<(), Failed>
        ensures bytes { Wrote self.old.contents self.new.contents result bytes.now }
        ensures worked { OnOk result (self.new.failures ≡ self.old.failures) }
        ensures failed { OnErr result (self.new.failures ≡ self.old.failures + 1) }
        ensures flushed { self.new.flushed ≡ false }
    {
        self.flushed = false;
        let mut rest = bytes;
        for _ in 0..u64::MAX {
            if rest.is_empty() {
                return Ok(());
            }
            match self.inner.write(rest) {
                Ok(0) => break,
                Ok(n) => rest = &rest[n..],
                Err(e) => {
                    if e.kind() != ErrorKind::Interrupted {
                        break;
                    }
                }
            }
        }
        self.failures.count();
        Err(Failed)
    }

    /// Writes the number in decimal, or a beginning of it and fails.
    pub fn tell_number(&mut self, number: u64) -> Result<(), Failed>
        ensures bytes { Wrote self.old.contents self.new.contents result
            (decimal number) }
        ensures worked { OnOk result (self.new.failures ≡ self.old.failures) }
        ensures failed { OnErr result (self.new.failures ≡ self.old.failures + 1) }
        ensures flushed { self.new.flushed ≡ false }
    {
        let mut buffer = Buffer::new();
        self.tell(buffer.format(number).as_bytes())
    }

    /// Writes an integer, with a minus sign before it where it is negative.
    pub fn tell_signed(&mut self, number: i64) -> Result<(), Failed>
        ensures bytes { Wrote self.old.contents self.new.contents result
            (signed_decimal number) }
        ensures worked { OnOk result (self.new.failures ≡ self.old.failures) }
        ensures failed { OnErr result (self.new.failures ≡ self.old.failures + 1) }
        ensures flushed { self.new.flushed ≡ false }
    {
        let mut buffer = Buffer::new();
        self.tell(buffer.format(number).as_bytes())
    }

    /// Hands on what was written.
    pub fn flush(&mut self) -> Result<(), Failed>
        ensures bytes { Keeps self.old.contents self.new.contents }
        ensures flushed { OnOk result (self.new.flushed ≡ true) }
        ensures unflushed { OnErr result (self.new.flushed ≡ self.old.flushed) }
        ensures worked { OnOk result (self.new.failures ≡ self.old.failures) }
        ensures failed { OnErr result (self.new.failures ≡ self.old.failures + 1) }
    {
        for _ in 0..u64::MAX {
            match self.inner.flush() {
                Ok(()) => {
                    self.flushed = true;
                    return Ok(());
                }
                Err(e) => {
                    if e.kind() != ErrorKind::Interrupted {
                        break;
                    }
                }
            }
        }
        self.failures.count();
        Err(Failed)
    }
}
