//! The numbers of a node line.
ghost use Rattle.std.specs.Prelude.{◌≡◌, ◌∷◌, [], MatchOption, filter};
ghost use Rattle.macrocell_lines.specs.Pieces.{five_numbers, is_word};

use crate::pieces::Pieces;
use text_lines::number;

/// The level and the quadrants that a line says in numbers, of which 2^64 - 1 stands for all that
/// are greater too.
#[derive(Clone, Copy, Debug)]
pub(crate) struct FiveNumbers {
    pub(crate) level: u64,
    pub(crate) nw: u64,
    pub(crate) ne: u64,
    pub(crate) sw: u64,
    pub(crate) se: u64,
}

/// The numbers of a line that says five, parted by spaces.
pub(crate) fn five_numbers(line: &[u8]) -> Option<FiveNumbers>
    ensures { result ≡ five_numbers line.now }
{
    let mut pieces = Pieces::new(b' ', line);
    let level = next_word(&mut pieces)?;
    let nw = next_word(&mut pieces)?;
    let ne = next_word(&mut pieces)?;
    let sw = next_word(&mut pieces)?;
    let se = next_word(&mut pieces)?;
    if next_word(&mut pieces).is_some() {
        return None;
    }
    Some(FiveNumbers {
        level: number(level)?,
        nw: number(nw)?,
        ne: number(ne)?,
        sw: number(sw)?,
        se: number(se)?,
    })
}

// The next piece that isn't empty.
fn next_word<'a>(pieces: &mut Pieces<'a>) -> Option<&'a [u8]>
    ensures { MatchOption result (filter is_word pieces.old ≡ [])
        (λ word. filter is_word pieces.old ≡ word.now ∷ filter is_word pieces.new) }
{
    while let Some(piece) = pieces.next() {
        if !piece.is_empty() {
            return Some(piece);
        }
    }
    None
}
