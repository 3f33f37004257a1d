//! The pieces of a line.
ghost use Rattle.std.specs.Prelude.{◌≡◌, ◌∷◌, [], MatchOption};
ghost use Rattle.std.specs.Option.{option_map_or};
ghost use Rattle.macrocell_lines.specs.Pieces.{pieces};

use std::marker::Model;
use text_lines::find_byte;

/// The pieces of a line that are left, between which the separator stands.
#[derive(Debug, Drop)]
pub(crate) struct Pieces<'a> {
    separator: u8,
    text: Option<&'a [u8]>,
}

impl<'a> Model for Pieces<'a> {
    ghost use Rattle.std.specs.Prelude.{List, [], ℕ};
    ghost use Rattle.std.specs.Option.{option_map_or};
    ghost use Rattle.macrocell_lines.specs.Pieces.{pieces};

    ghost Value = { List (List ℕ) };

    ghost view = { λ left. option_map_or (λ text. pieces left.separator text.now) left.text [] };
}

impl<'a> Pieces<'a> {
    /// The pieces of this line.
    pub(crate) fn new(separator: u8, line: &'a [u8]) -> Pieces<'a>
        ensures { result ≡ pieces separator line.now }
    {
        Pieces {
            separator,
            text: Some(line),
        }
    }

    /// Takes the next piece.
    pub(crate) fn next(&mut self) -> Option<&'a [u8]>
        ensures { MatchOption result (self.old ≡ []) (λ piece. self.old ≡ piece.now ∷ self.new) }
    {
        let (piece, text) = split_piece(self.separator, self.text?);
        self.text = text;
        Some(piece)
    }
}

// What stands before the first separator, and what is left behind it, if there is one.
fn split_piece(separator: u8, text: &[u8]) -> (&[u8], Option<&[u8]>)
    ensures { pieces separator text.now
        ≡ result.0.now ∷ option_map_or (λ left. pieces separator left.now) result.1 [] }
{
    match find_byte(text, separator) {
        Some(end) => (&text[..end], Some(&text[end + 1..])),
        None => (text, None),
    }
}
