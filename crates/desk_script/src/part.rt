//! Parts of lines, and how they are added to a text.
ghost use Rattle.std.specs.Prelude.{◌≡◌, ◌++◌, OnOk};
ghost use Rattle.desk_script.specs.Parts.{part_text, parts_text};

use itoa::Buffer;
use std::alloc::AllocError;

/// A part of a line: a text or a number.
#[derive(Clone, Copy, Debug)]
pub enum Part<'a> {
    Text(&'a [u8]),
    Number(u64),
    Signed(i64),
}

// Adds a part to a text.
fn push_part(text: &mut Vec<u8>, part: Part<'_>) -> Result<(), AllocError>
    ensures { OnOk result (text.new.items ≡ text.old.items ++ part_text part.entry) }
{
    match part {
        Part::Text(bytes) => text.extend_from_slice(bytes),
        Part::Number(number) => text.extend_from_slice(Buffer::new().format(number).as_bytes()),
        Part::Signed(number) => text.extend_from_slice(Buffer::new().format(number).as_bytes()),
    }
}

/// Adds parts to a text, one after the other.
pub(crate) fn push_parts(text: &mut Vec<u8>, parts: &[Part<'_>]) -> Result<(), AllocError>
    ensures { OnOk result (text.new.items ≡ text.old.items ++ parts_text parts.now) }
{
    for part in parts {
        push_part(text, *part)?;
    }
    Ok(())
}
