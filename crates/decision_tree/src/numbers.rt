//! The numbers of a line, which blanks part.
ghost use Rattle.std.specs.Prelude.{◌≡◌, ◌∷◌, [], MatchOption, IfOk, position, map};
ghost use Rattle.std.specs.List.{slice_split};
ghost use Rattle.std.specs.Option.{option_map, option_map_or};
ghost use Rattle.text_lines.specs.Blanks.{is_blank};
ghost use Rattle.text_lines.specs.Numbers.{number_of};
ghost use Rattle.decision_tree.specs.Kept.{saturated};
ghost use Rattle.decision_tree.specs.TreeLines.{numbers_in, words};

use std::alloc::{AllocError, Global};
use std::marker::Model;
use text_lines::{is_blank, number};

/// What stands between the blanks of a line and is left; nothing stands between two blanks.
#[derive(Debug, Drop)]
struct Pieces<'a> {
    text: Option<&'a [u8]>,
}

impl<'a> Model for Pieces<'a> {
    ghost use Rattle.std.specs.Prelude.{List, [], ℕ};
    ghost use Rattle.std.specs.List.{slice_split};
    ghost use Rattle.std.specs.Option.{option_map_or};
    ghost use Rattle.text_lines.specs.Blanks.{is_blank};

    ghost Value = { List (List ℕ) };

    ghost view = { λ left. option_map_or (λ text. slice_split is_blank text.now) left.text [] };
}

impl<'a> Pieces<'a> {
    fn new(line: &'a [u8]) -> Pieces<'a>
        ensures { result ≡ slice_split is_blank line.now }
    {
        Pieces { text: Some(line) }
    }

    fn next(&mut self) -> Option<&'a [u8]>
        ensures { MatchOption result (self.old ≡ []) (λ piece. self.old ≡ piece.now ∷ self.new) }
    {
        let (piece, text) = split_piece(self.text?);
        self.text = text;
        Some(piece)
    }
}

// What stands before the first blank, and what is left behind it, if there is a blank.
fn split_piece(text: &[u8]) -> (&[u8], Option<&[u8]>)
    ensures { slice_split is_blank text.now
        ≡ result.0.now ∷ option_map_or (λ left. slice_split is_blank left.now) result.1 [] }
{
    match first_blank(text) {
        Some(end) => (&text[..end], Some(&text[end + 1..])),
        None => (text, None),
    }
}

fn first_blank(text: &[u8]) -> Option<usize>
    ensures { result ≡ position is_blank text.now }
{
    text.iter().position(|b| is_blank(*b))
}

/// The numbers of a line, each at most 2^32 - 1, which stands for all that are greater too. None
/// where a word of the line is no number.
pub fn read_numbers(alloc: Global, line: &[u8]) -> Result<Option<Vec<u32>>, AllocError>
    ensures { IfOk result (λ found.
        option_map (λ numbers. numbers.items) found
        ≡ option_map (map saturated) (numbers_in (words line.now))) }
{
    let mut numbers = Vec::new(alloc);
    let mut pieces = Pieces::new(line);
    while let Some(piece) = pieces.next() {
        if piece.is_empty() {
            continue;
        }
        match small_number(piece) {
            Some(number) => numbers.push(number)?,
            None => return Ok(None),
        }
    }
    Ok(Some(numbers))
}

// The number that digits write, or 2^32 - 1 if it is greater.
fn small_number(digits: &[u8]) -> Option<u32>
    ensures { result ≡ option_map saturated (number_of digits.now) }
{
    match number(digits)? {
        number @ 0..=0xffff_ffff => Some(number as u32),
        _ => Some(u32::MAX),
    }
}
