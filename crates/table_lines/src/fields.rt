//! What a line says one after another: what stands between its commas, or each of its bytes.
ghost use Rattle.std.specs.Prelude.{◌≡◌, ◌==◌, ◌≤◌, ◌&&◌, ◌∷◌, [], count_by, length, nat_le, not, MatchOption};
ghost use Rattle.std.specs.List.{list_any};
ghost use Rattle.std.specs.Option.{option_map_or};
ghost use Rattle.table_lines.specs.Fields.{fields, parts};

use std::marker::Model;
use text_lines::{find_byte, trim};

// The most states that have a digit each.
const DIGITS: u16 = 10;

/// The fields of a line that are left.
#[derive(Debug, Drop)]
pub struct Fields<'a> {
    text: Option<&'a [u8]>,
    is_compact: bool,
}

impl<'a> Model for Fields<'a> {
    ghost use Rattle.std.specs.Prelude.{List, [], ℕ, if◌then◌else◌};
    ghost use Rattle.std.specs.Option.{option_map_or};
    ghost use Rattle.table_lines.specs.Fields.{parts, single_bytes};

    ghost Value = { List (List ℕ) };

    ghost view = { λ left. option_map_or
        (λ text. if left.is_compact then single_bytes text.now else parts text.now) left.text [] };
}

impl<'a> Fields<'a> {
    /// The entries of a transition line, in a table of so many states.
    pub fn of_entries(states: u16, line: &'a [u8]) -> Fields<'a>
        ensures { result ≡ fields states line.now }
    {
        Fields {
            text: Some(line),
            is_compact: is_compact(states, line),
        }
    }

    /// What stands between the commas of this text.
    pub fn of_parts(text: &'a [u8]) -> Fields<'a>
        ensures { result ≡ parts text.now }
    {
        Fields {
            text: Some(text),
            is_compact: false,
        }
    }

    /// Takes the next field.
    pub fn next(&mut self) -> Option<&'a [u8]>
        ensures { MatchOption result (self.old ≡ []) (λ field. self.old ≡ field.now ∷ self.new) }
    {
        let text = self.text?;
        if self.is_compact {
            if text.is_empty() {
                return None;
            }
            self.text = Some(&text[1..]);
            return Some(&text[..1]);
        }
        let (field, left) = split_part(text);
        self.text = left;
        Some(field)
    }
}

// Whether each byte of a transition line is an entry.
fn is_compact(states: u16, line: &[u8]) -> bool
    ensures { result ≡ (nat_le states 10 && not (list_any (λ b. b == 44) line.now)) }
{
    states <= DIGITS && !has_comma(line)
}

fn has_comma(line: &[u8]) -> bool
    ensures { result ≡ list_any (λ b. b == 44) line.now }
{
    line.iter().any(|b| *b == b',')
}

// The first part of a text, and what is left behind the first comma, if there is one.
fn split_part(text: &[u8]) -> (&[u8], Option<&[u8]>)
    ensures { parts text.now ≡ result.0.now ∷ option_map_or (λ left. parts left.now) result.1 [] }
{
    match find_byte(text, b',') {
        Some(end) => (trim(&text[..end]), Some(&text[end + 1..])),
        None => (trim(text), None),
    }
}

/// How many entries a transition line has, in a table of so many states.
pub fn entry_count(states: u16, line: &[u8]) -> usize
    ensures { result ≡ length (fields states line.now) }
{
    if is_compact(states, line) {
        return line.len();
    }
    comma_count(line) + 1
}

fn comma_count(line: &[u8]) -> usize
    ensures value { result ≡ count_by (λ b. b == 44) line.now }
    ensures within { result ≤ length line.now }
{
    line.iter().filter(|b| **b == b',').count()
}
