//! Bytes, cut in two.
ghost use Rattle.std.specs.Prelude.{◌≡◌};
ghost use Rattle.std.specs.Option.{option_copied, option_map};
ghost use Rattle.multistate_rle.specs.Cut.{after, begins_with, cut_at};

use text_lines::find_byte;

/// Whether the first byte is this one.
pub(crate) fn begins_with(bytes: &[u8], byte: u8) -> bool
    ensures { result ≡ begins_with byte bytes.now }
{
    bytes.first() == Some(&byte)
}

/// What follows these bytes in others that begin with them.
pub(crate) fn after<'a>(front: &[u8], bytes: &'a [u8]) -> Option<&'a [u8]>
    ensures { option_copied result ≡ after front.now bytes.now }
{
    bytes.strip_prefix(front)
}

/// What stands before and behind the first byte that equals this one.
pub(crate) fn cut_at(bytes: &[u8], byte: u8) -> Option<(&[u8], &[u8])>
    ensures { option_map (λ cut. (cut.0.now, cut.1.now)) result ≡ cut_at byte bytes.now }
{
    let at = find_byte(bytes, byte)?;
    Some((&bytes[..at], &bytes[at + 1..]))
}
