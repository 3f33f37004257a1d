//! A reader whose failures and bytes are counted.
ghost use Rattle.std.specs.Prelude.{◌≡◌, ◌+◌, ◌^◌, ◌<◌, ◌≤◌, length, IfOk, MatchResult, OnOk, OnErr};
ghost use Rattle.std.specs.Io.KnownBytes.{ReadConsumes};

use crate::failures::Failures;
use std::io::{ErrorKind, Read};
use std::sync::ledger::{Blank, Ledger};

/// A call failed: its failure was counted, or a reader gave 2^64 - 1 bytes without an end.
#[derive(Clone, Copy, Debug, PartialEq, Eq)]
pub struct Failed;

/// A reader with the count of its failures, which are the calls that answered an error, and of its
/// bytes, from 0 to 2^64 - 1. A call that a signal interrupted is made again, and is no failure.
#[derive(Drop)]
pub(crate) struct Source<R, L: Ledger> {
    pub(crate) inner: R,
    pub(crate) failures: Failures<L>,
    pub(crate) given: u64,
}

impl<R, L: Ledger> Source<R, L> {
    /// Counts in a ledger that is new.
    pub(crate) fn new(inner: R, blank: Blank) -> Source<R, L>
        requires name { blank.name ≡ L.name }
        requires parts { blank.parts ≡ L.parts }
        requires some { 0 < blank.parts }
        ensures inner { result.inner ≡ inner }
        ensures failures { result.failures ≡ 0 }
        ensures given { result.given ≡ 0 }
    {
        Source {
            inner,
            failures: Failures::none(blank),
            given: 0,
        }
    }

    /// The reader.
    pub(crate) fn into_inner(self) -> R
        ensures { result ≡ self.inner }
    {
        let Source {
            inner,
            failures: _,
            given: _,
        } = self;
        inner
    }
}

impl<R: Read, L: Ledger> Source<R, L> {
    /// Reads once, and again where a signal interrupted it.
    pub(crate) fn read(&mut self, buf: &mut [u8]) -> Result<usize, Failed>
        requires { self.old.given + length buf.old < 2 ^ 64 }
        ensures bound { IfOk result (λ n. n ≤ length buf.new) }
        ensures bytes { ReadConsumes (R.remaining self.old.inner) (R.remaining self.new.inner)
            result buf.new }
        ensures given { MatchResult result (λ n. self.new.given ≡ self.old.given + n)
            (λ _. self.new.given ≡ self.old.given) }
        ensures worked { OnOk result (self.new.failures ≡ self.old.failures) }
        ensures failed { OnErr result (self.new.failures ≡ self.old.failures + 1) }
    {
        for _ in 0..u64::MAX {
            match self.inner.read(buf) {
                Ok(n) => {
                    self.given += n as u64;
                    return Ok(n);
                }
                Err(e) => {
                    if e.kind() != ErrorKind::Interrupted {
                        break;
                    }
                }
            }
        }
        self.failures.count();
        Err(Failed)
    }
}
