//! The view that a bookmark's words name.
ghost use Rattle.std.specs.Prelude.{◌≡◌};
ghost use Rattle.script_lines.specs.Words.{words};
ghost use Rattle.desk_script.specs.View.{extent, view_of, window_of};

use crate::words::alone;
use schedule::View;
use script_lines::{next_word, signed, unsigned};

/// The view that the words name, if they name one.
pub(crate) fn read_view(bytes: &[u8]) -> Option<View>
    ensures { result ≡ view_of (words bytes.now) }
{
    let (name, rest) = next_word(bytes)?;
    if name == b"counts".as_slice() {
        alone(View::Counts, rest)
    } else if name == b"rle".as_slice() {
        alone(View::Rle, rest)
    } else if name == b"mc".as_slice() {
        alone(View::Macrocell, rest)
    } else if name == b"window".as_slice() {
        read_window(rest)
    } else {
        None
    }
}

fn read_window(bytes: &[u8]) -> Option<View>
    ensures { result ≡ window_of (words bytes.now) }
{
    let (left, rest) = next_word(bytes)?;
    let (top, rest) = next_word(rest)?;
    let (width, rest) = next_word(rest)?;
    let (height, rest) = next_word(rest)?;
    if next_word(rest).is_some() {
        return None;
    }
    Some(View::Window {
        left: signed(left)?,
        top: signed(top)?,
        width: extent(width)?,
        height: extent(height)?,
    })
}

// A width or a height.
fn extent(word: &[u8]) -> Option<u32>
    ensures { result ≡ extent word.now }
{
    let count = unsigned(word, u64::from(u32::MAX))?;
    Some(count as u32)
}
