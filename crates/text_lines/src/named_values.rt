//! Lines of a name, a sign and a value.
ghost use Rattle.std.specs.Prelude.{◌≡◌};
ghost use Rattle.std.specs.Option.{option_map};
ghost use Rattle.text_lines.specs.NamedValues.{named_value};

use crate::blanks::{trim_end, trim_start};
use crate::bytes::find_byte;

/// The name and the value, which the first such sign parts, without the blanks on either side of
/// it. None where the line has no such sign.
pub fn named_value(line: &[u8], sign: u8) -> Option<(&[u8], &[u8])>
    ensures { option_map (λ found. (found.0.now, found.1.now)) result
        ≡ named_value sign line.now }
{
    let at = find_byte(line, sign)?;
    Some((trim_end(&line[..at]), trim_start(&line[at + 1..])))
}
