//! The lines of a whole text, one after another.
ghost use Rattle.std.specs.Prelude.{◌≡◌, ◌≢◌, ◌∷◌, [], ◌≤◌, length};
ghost use Rattle.std.specs.Iterator.{YieldsFirstRef, item_count};
ghost use Rattle.text_lines.specs.Lines.{line_len, strip_carriage_return, says};

use crate::blanks::trim;
use std::marker::Model;

/// An iterator over the lines of a text, which gives what each says.
///
/// Contracts see what the lines that are left say.
#[derive(Debug, Drop)]
pub struct Lines<'a> {
    text: &'a [u8],
}

impl<'a> Model for Lines<'a> {
    ghost use Rattle.std.specs.Prelude.{List, ℕ};
    ghost use Rattle.text_lines.specs.Lines.{says};

    ghost Value = { List (List ℕ) };

    ghost view = { λ lines. says lines.text.now };
}

impl<'a> Lines<'a> {
    /// The lines of this text, which has no more of them than bytes.
    #[tactic(auto, using(std::proofs::lemmas::Grind::common_steps, crate::proofs::Shared::FirstLine::length_lines_from))]
    pub fn new(text: &'a [u8]) -> Lines<'a>
        ensures lines { result ≡ says text.now }
        ensures count { length result ≤ length text.now }
    {
        Lines { text }
    }
}

impl<'a> Iterator for Lines<'a> {
    type Item = &'a [u8];

    ghost next_gives = { YieldsFirstRef (λ lines. lines) };

    ghost remaining = { item_count (λ lines. lines) };

    fn next(&mut self) -> Option<&'a [u8]> {
        if self.text.is_empty() {
            return None;
        }
        let (line, rest) = split_line(self.text);
        self.text = rest;
        Some(line)
    }
}

// How many bytes stand before the first line feed, or how many there are if there is none.
fn line_len(text: &[u8]) -> usize
    ensures value { result ≡ line_len text.now }
    ensures within { result ≤ length text.now }
{
    for (i, byte) in text.iter().enumerate() {
        if *byte == b'\n' {
            return i;
        }
    }
    text.len()
}

/// The bytes without one carriage return at their end.
#[tactic(auto, using(crate::proofs::Shared::Trims::strip_carriage_return_at))]
pub fn strip_carriage_return(bytes: &[u8]) -> &[u8]
    ensures { result.now ≡ strip_carriage_return bytes.now }
{
    match bytes {
        [before @ .., last] if *last == b'\r' => before,
        _ => bytes,
    }
}

// What the first line of a text says, and the text behind that line.
#[tactic(auto, using(std::proofs::lemmas::Grind::common_steps, crate::proofs::Shared::FirstLine::first_line))]
fn split_line(text: &[u8]) -> (&[u8], &[u8])
    requires { text.now ≢ [] }
    ensures { says text.now ≡ result.0.now ∷ says result.1.now }
{
    let len = line_len(text);
    if len == text.len() {
        (trim(text), &text[len..])
    } else {
        (trim(strip_carriage_return(&text[..len])), &text[len + 1..])
    }
}
