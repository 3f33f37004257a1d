//! The bytes of a reader, one at a time, through a buffer of fixed size.
ghost use Rattle.std.specs.Prelude.{◌≡◌, ◌+◌, ◌-◌, ◌^◌, ◌<◌, ◌≤◌, IfOk, OnOk, OnErr, MatchOption, slice_range, Ok, true, false, ◌∷◌};
ghost use Rattle.std.specs.Io.KnownBytes.{IsAtEnd, Keeps};

use crate::source::{Failed, Source};
use std::io::Read;
use std::sync::ledger::Ledger;

const SIZE: usize = 4096;

/// The places in the buffer that were read and not yet taken.
#[derive(Clone, Copy, Debug)]
pub(crate) struct Unread {
    pub(crate) at: usize,
    pub(crate) end: usize,
    ghost ordered: { at ≤ end },
    ghost in_range: { end ≤ 4096 },
}

/// What was read and not yet taken.
#[derive(Drop)]
pub(crate) struct Input {
    pub(crate) bytes: [u8; SIZE],
    pub(crate) unread: Unread,
}

impl Input {
    ghost use Rattle.script_lines.specs.Input.{left, bytes_left, GivesByte, FailsOrFull, IsDrained};

    /// Nothing is in the buffer yet.
    pub(crate) fn new() -> Input
        ensures at { result.unread.at ≡ 0 }
        ensures end { result.unread.end ≡ 0 }
    {
        Input {
            bytes: [0; SIZE],
            unread: Unread { at: 0, end: 0 },
        }
    }

    // Reads once, where all that was read before was taken.
    fn fill<R: Read, L: Ledger>(&mut self, reader: &mut Source<R, L>) -> Result<(), Failed>
        requires { IsDrained self.old.unread }
        ensures bytes { Keeps (left (R.remaining reader.old.inner) self.old)
            (left (R.remaining reader.new.inner) self.new) }
        ensures same { bytes_left reader.new.given self.new ≡ bytes_left reader.old.given self.old }
        ensures filled { OnOk result ((self.new.unread.at ≡ 0) × (self.new.unread.end ≡ 0
            → IsAtEnd (left (R.remaining reader.new.inner) self.new))) }
        ensures worked { OnOk result (reader.new.failures ≡ reader.old.failures) }
        ensures failed { OnErr result (IsDrained self.new.unread
            × FailsOrFull reader.old.failures reader.new.failures reader.new.given) }
    {
        let most = u64::MAX - reader.given;
        if most == 0 {
            return Err(Failed);
        }
        let room = most.min(SIZE as u64) as usize;
        let count = reader.read(&mut self.bytes[..room])?;
        self.unread = Unread { at: 0, end: count };
        Ok(())
    }

    // Whether there is a byte to take; if not, the reader is at its end.
    fn ready<R: Read, L: Ledger>(&mut self, reader: &mut Source<R, L>) -> Result<bool, Failed>
        ensures bytes { Keeps (left (R.remaining reader.old.inner) self.old)
            (left (R.remaining reader.new.inner) self.new) }
        ensures same { bytes_left reader.new.given self.new ≡ bytes_left reader.old.given self.old }
        ensures some { result ≡ Ok true → self.new.unread.at < self.new.unread.end }
        ensures none { result ≡ Ok false → IsAtEnd (left (R.remaining reader.new.inner) self.new) }
        ensures worked { OnOk result (reader.new.failures ≡ reader.old.failures) }
        ensures failed { OnErr result (IsDrained self.new.unread
            × FailsOrFull reader.old.failures reader.new.failures reader.new.given) }
    {
        if self.unread.at < self.unread.end {
            return Ok(true);
        }
        self.fill(reader)?;
        Ok(self.unread.end != 0)
    }

    // Takes the byte that is there.
    fn take(&mut self) -> u8
        requires { self.old.unread.at < self.old.unread.end }
        ensures byte { slice_range self.old.bytes self.old.unread.at self.old.unread.end
            ≡ result ∷ slice_range self.new.bytes self.new.unread.at self.new.unread.end }
        ensures less { self.new.unread.end - self.new.unread.at + 1
            ≡ self.old.unread.end - self.old.unread.at }
    {
        let unread = self.unread;
        self.unread = Unread {
            at: unread.at + 1,
            end: unread.end,
        };
        self.bytes[unread.at]
    }

    /// The next byte, or None at the end of what the reader gives. It fails where a read failed
    /// or 2^64 - 1 bytes were read.
    pub(crate) fn next<R: Read, L: Ledger>(
        &mut self,
        reader: &mut Source<R, L>,
    ) -> Result<Option<u8>, Failed>
        ensures bytes { IfOk result (λ b. GivesByte b (left (R.remaining reader.old.inner) self.old)
            (left (R.remaining reader.new.inner) self.new)) }
        ensures falls { IfOk result (λ b. MatchOption b
            (bytes_left reader.new.given self.new ≡ bytes_left reader.old.given self.old)
            (λ _. bytes_left reader.new.given self.new + 1
            ≡ bytes_left reader.old.given self.old)) }
        ensures worked { OnOk result (reader.new.failures ≡ reader.old.failures) }
        ensures err { OnErr result (Keeps (left (R.remaining reader.old.inner) self.old)
            (left (R.remaining reader.new.inner) self.new)) }
        ensures same { OnErr result
            (bytes_left reader.new.given self.new ≡ bytes_left reader.old.given self.old) }
        ensures failed { OnErr result (IsDrained self.new.unread
            × FailsOrFull reader.old.failures reader.new.failures reader.new.given) }
    {
        if !self.ready(reader)? {
            return Ok(None);
        }
        Ok(Some(self.take()))
    }
}
