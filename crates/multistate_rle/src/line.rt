//! The first line of a text.
ghost use Rattle.std.specs.Prelude.{◌≡◌, ◌≢◌, ◌<◌, ◌≤◌, ◌∷◌, [], length, take, drop};
ghost use Rattle.text_lines.specs.Lines.{lines};

use text_lines::{find_byte, strip_carriage_return, trim};

/// The first line of a text: what it says, and how many bytes it has with its line end.
#[derive(Clone, Copy, Debug)]
pub(crate) struct FirstLine<'a> {
    pub(crate) says: &'a [u8],
    pub(crate) len: usize,
}

/// The first line of a text that has one.
pub(crate) fn first_line(text: &[u8]) -> FirstLine<'_>
    requires { text.now ≢ [] }
    ensures line { lines text.now
        ≡ record { says = result.says.now; raw = take result.len text.now } ∷
        lines (drop result.len text.now) }
    ensures some { 0 < result.len }
    ensures within { result.len ≤ length text.now }
{
    match find_byte(text, b'\n') {
        Some(end) => FirstLine {
            says: trim(strip_carriage_return(&text[..end])),
            len: end + 1,
        },
        None => FirstLine {
            says: trim(text),
            len: text.len(),
        },
    }
}
