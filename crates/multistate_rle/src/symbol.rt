//! The symbols of a body.
ghost use Rattle.std.specs.Prelude.{◌≡◌, ◌≤◌, ◌∷◌, [], length, drop, MatchOption, IsTrue};
ghost use Rattle.multistate_rle.specs.Symbols.{is_letter, is_prefix, plain_symbol, prefixed_symbol, solid_from, symbols};

use crate::solid::{ByteAt, SolidBytes};
use std::marker::Model;

/// What a byte of a body says, or a prefix with the letter behind it.
#[derive(Clone, Copy, Debug, PartialEq, Eq)]
pub(crate) enum Symbol {
    /// A digit of a count.
    Digit(u8),
    /// A cell of this state.
    Cell(u8),
    /// The end of a row.
    RowEnd,
    /// The end of the pattern.
    End,
    /// None of these, at this offset.
    Unknown(u64),
}

/// The symbols of a body that are left.
#[derive(Debug, Drop)]
pub(crate) struct Symbols<'a> {
    bytes: SolidBytes<'a>,
}

impl<'a> Model for Symbols<'a> {
    ghost use Rattle.std.specs.Prelude.{List};
    ghost use Rattle.multistate_rle.specs.declared.symbol.Symbol.{Symbol};
    ghost use Rattle.multistate_rle.specs.Symbols.{symbols};

    ghost Value = { List Symbol };

    ghost view = { λ left. symbols left.bytes };
}

impl<'a> Symbols<'a> {
    /// The symbols of the body that begins at this offset.
    pub(crate) fn new(text: &'a [u8], offset: usize) -> Symbols<'a>
        requires { offset ≤ length text.now }
        ensures { result ≡ symbols (solid_from offset (drop offset text.now)) }
    {
        Symbols {
            bytes: SolidBytes::new(text, offset),
        }
    }

    /// Takes the next symbol.
    pub(crate) fn next(&mut self) -> Option<Symbol>
        ensures { MatchOption result (self.old ≡ []) (λ symbol. self.old ≡ symbol ∷ self.new) }
    {
        let first = self.bytes.next()?;
        if !is_prefix(first.byte) {
            return Some(plain_symbol(first));
        }
        let Some(second) = self.bytes.next() else {
            return Some(Symbol::Unknown(first.offset));
        };
        Some(prefixed_symbol(first, second))
    }
}

// Whether the byte is one of those that raise the state of the letter behind them.
fn is_prefix(byte: u8) -> bool
    ensures { result ≡ is_prefix byte }
{
    b'p' <= byte && byte <= b'y'
}

fn is_letter(byte: u8) -> bool
    ensures { result ≡ is_letter byte }
{
    b'A' <= byte && byte <= b'X'
}

// What a byte says that is no prefix.
fn plain_symbol(at: ByteAt) -> Symbol
    ensures { result ≡ plain_symbol at }
{
    match at.byte {
        b'0'..=b'9' => Symbol::Digit(at.byte - b'0'),
        b'b' | b'.' => Symbol::Cell(0),
        b'o' => Symbol::Cell(1),
        b'A'..=b'X' => Symbol::Cell(at.byte - b'A' + 1),
        b'$' => Symbol::RowEnd,
        b'!' => Symbol::End,
        _ => Symbol::Unknown(at.offset),
    }
}

// What a prefix says with the byte behind it: `p` raises the state of a letter by 24, `q` by 48,
// and so on.
fn prefixed_symbol(prefix: ByteAt, letter: ByteAt) -> Symbol
    requires { IsTrue (is_prefix prefix.byte) }
    ensures { result ≡ prefixed_symbol prefix letter }
{
    if !is_letter(letter.byte) {
        return Symbol::Unknown(prefix.offset);
    }
    let state = u16::from(prefix.byte - b'p' + 1) * 24 + u16::from(letter.byte - b'A' + 1);
    if state > 255 {
        return Symbol::Unknown(prefix.offset);
    }
    Symbol::Cell(state as u8)
}
