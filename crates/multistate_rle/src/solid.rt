//! The bytes of a body that mean something, with their offsets.
ghost use Rattle.std.specs.Prelude.{◌≡◌, ◌≤◌, ◌∷◌, [], length, drop, MatchOption};
ghost use Rattle.multistate_rle.specs.Symbols.{is_passed, solid_from};

use crate::cut::begins_with;
use std::marker::Model;
use text_lines::is_blank;

/// A byte and its offset in the file.
#[derive(Clone, Copy, Debug, PartialEq, Eq)]
pub(crate) struct ByteAt {
    pub(crate) offset: u64,
    pub(crate) byte: u8,
}

/// The bytes of a body that are left, without blanks and line ends.
#[derive(Debug, Drop)]
pub(crate) struct SolidBytes<'a> {
    offset: u64,
    left: &'a [u8],
}

impl<'a> Model for SolidBytes<'a> {
    ghost use Rattle.std.specs.Prelude.{List, length, ◌+◌, ◌<◌, ◌^◌};
    ghost use Rattle.multistate_rle.specs.declared.solid.ByteAt.{ByteAt};
    ghost use Rattle.multistate_rle.specs.Symbols.{solid_from};

    ghost Value = { List ByteAt };

    ghost view = { λ bytes. solid_from bytes.offset bytes.left.now };

    ghost invariant = { λ bytes. bytes.offset + length bytes.left.now < 2 ^ 64 };
}

impl<'a> SolidBytes<'a> {
    /// The bytes from this offset on.
    pub(crate) fn new(text: &'a [u8], offset: usize) -> SolidBytes<'a>
        requires { offset ≤ length text.now }
        ensures { result ≡ solid_from offset (drop offset text.now) }
    {
        SolidBytes {
            offset: offset as u64,
            left: &text[offset..],
        }
    }

    /// Takes the next byte.
    pub(crate) fn next(&mut self) -> Option<ByteAt>
        ensures { MatchOption result ((self.old ≡ []) × (self.new ≡ []))
            (λ at. self.old ≡ at ∷ self.new) }
    {
        while let [byte, rest @ ..] = self.left {
            let at = ByteAt {
                offset: self.offset,
                byte: *byte,
            };
            self.left = rest;
            self.offset += 1;
            if !is_passed(at.byte, rest) {
                return Some(at);
            }
        }
        None
    }
}

// Whether a byte is a blank or belongs to a line end, by the bytes behind it.
fn is_passed(byte: u8, rest: &[u8]) -> bool
    ensures { result ≡ is_passed byte rest.now }
{
    is_blank(byte) || byte == b'\n' || byte == b'\r' && begins_with(rest, b'\n')
}
