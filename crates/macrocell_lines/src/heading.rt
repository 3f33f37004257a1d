//! Lines that begin with `#`: the rule's name, the generation, and comments.
ghost use Rattle.std.specs.Prelude.{◌≡◌};
ghost use Rattle.std.specs.Option.{option_copied};
ghost use Rattle.basics.specs.Results.{Reads};
ghost use Rattle.macrocell_lines.specs.Headings.{after_comment, generation_in, value_behind, value_in};
ghost use Rattle.macrocell_lines.specs.Kept.{heading_of};

use crate::fault::McFault;
use text_lines::{find_byte, is_blank, number, trim};

/// What the lines that begin with `#` say of a pattern.
#[derive(Clone, Copy, Debug)]
pub(crate) struct Heading<'a> {
    pub(crate) rule_name: &'a [u8],
    pub(crate) generation: u64,
}

/// The heading after one more line that begins with `#`.
///
/// `#R` gives the rule's name and `#G` the generation, 2^64 - 1 where it is greater; a `#G` with
/// anything but a number, like any other line, is a comment. A name with a colon is refused by
/// BoundedGrid, and a line that begins with `#FRAME` by Timeline.
pub(crate) fn after_comment<'a>(
    heading: Heading<'a>,
    line: &'a [u8],
) -> Result<Heading<'a>, McFault>
    ensures { Reads heading_of result (after_comment (heading_of heading.entry) line.now) }
{
    if line.starts_with(b"#FRAME") {
        return Err(McFault::Timeline);
    }
    if let Some(rule_name) = value_behind(b"#R", line) {
        if find_byte(rule_name, b':').is_some() {
            return Err(McFault::BoundedGrid);
        }
        return Ok(Heading {
            rule_name,
            ..heading
        });
    }
    match generation_in(line) {
        Some(generation) => Ok(Heading {
            generation,
            ..heading
        }),
        None => Ok(heading),
    }
}

// The generation that a line gives.
fn generation_in(line: &[u8]) -> Option<u64>
    ensures { result ≡ generation_in line.now }
{
    number(value_behind(b"#G", line)?)
}

// What a line says behind this word, which stands alone or has a blank behind it.
fn value_behind<'a>(word: &[u8], line: &'a [u8]) -> Option<&'a [u8]>
    ensures { option_copied result ≡ value_behind word.now line.now }
{
    value_in(line.strip_prefix(word)?)
}

// What stands behind the blank at the beginning, or nothing behind nothing.
fn value_in(rest: &[u8]) -> Option<&[u8]>
    ensures { option_copied result ≡ value_in rest.now }
{
    match rest {
        [] => Some(rest),
        [first, value @ ..] if is_blank(*first) => Some(trim(value)),
        _ => None,
    }
}
