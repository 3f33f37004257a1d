//! Squares of 8 by 8 cells of two states.
ghost use Rattle.std.specs.Prelude.{◌≡◌, ◌<◌, ◌≤◌, length, IfSome};
ghost use Rattle.std.specs.List.{list_all};
ghost use Rattle.macrocell_lines.specs.Bitmaps.{bitmap_of, is_cell, is_live, row_bits, row_of};
ghost use Rattle.macrocell_lines.specs.Nodes.{IsBitmap};

use crate::pieces::Pieces;

/// A square of 8 by 8 cells, a byte a row from the top and a bit a cell: bit x of row y is set
/// where the cell x from the left is live.
#[derive(Clone, Copy, Debug, PartialEq, Eq)]
pub struct Bitmap {
    pub rows: [u8; 8],
}

impl Bitmap {
    /// Whether the cell at this column and this row, both counted from 0, is live.
    pub fn is_live(&self, x: usize, y: usize) -> bool
        requires column { x < 8 }
        requires row { y < 8 }
        ensures { result ≡ is_live self.now x y }
    {
        (self.rows[y] >> x) % 2 == 1
    }
}

/// The square that a line of `.`, `*` and `$` draws.
pub(crate) fn read_bitmap(line: &[u8]) -> Option<Bitmap>
    ensures bitmap { result ≡ bitmap_of line.now }
    ensures whole { IfSome result (λ bitmap. IsBitmap bitmap.rows) }
{
    let mut texts = Pieces::new(b'$', line);
    let mut rows = [0u8; 8];
    let mut y = 0;
    while let Some(text) = texts.next() {
        if y < 8 {
            let row = row_of(text)?;
            rows[y] = row;
            y += 1;
        } else if !text.is_empty() {
            return None;
        }
    }
    Some(Bitmap { rows })
}

// The bits of a row of at most eight cells.
fn row_of(text: &[u8]) -> Option<u8>
    ensures row { result ≡ row_of text.now }
    ensures below { IfSome result (λ row. row < 256) }
{
    if text.len() > 8 || !are_cells(text) {
        return None;
    }
    Some(row_bits(text))
}

fn are_cells(text: &[u8]) -> bool
    ensures { result ≡ list_all is_cell text.now }
{
    text.iter().all(|b| is_cell(*b))
}

fn is_cell(b: u8) -> bool
    ensures { result ≡ is_cell b }
{
    b == b'.' || b == b'*'
}

// The bits of these cells, of which the first is the lowest.
fn row_bits(cells: &[u8]) -> u8
    requires { length cells.now ≤ 8 }
    ensures { result ≡ row_bits cells.now }
{
    match cells {
        [] => 0,
        [cell, rest @ ..] => 2 * row_bits(rest) + u8::from(*cell == b'*'),
    }
}
