//! The text of a view of counts.
ghost use Rattle.std.specs.Prelude.{◌≡◌, ◌++◌, IfOk, OnOk};
ghost use Rattle.bookmarks.specs.Counts.{counts_text, count_line, or_empty};

use itoa::Buffer;
use plane_core::Plane;
use std::alloc::{AllocError, Global};

/// A line for each state but 0 that a cell has, rising, or the line `empty`.
pub(crate) fn counts_text(alloc: Global, plane: &Plane) -> Result<Vec<u8>, AllocError>
    ensures { IfOk result (λ text. text.items ≡ counts_text plane.now) }
{
    let counts = plane.counts()?;
    let mut text = Vec::new(alloc);
    for below in 0..u8::MAX {
        let state = below + 1;
        push_count(&mut text, state, counts[state as usize])?;
    }
    say_empty(&mut text)?;
    Ok(text)
}

// The line `empty`, where there is no other.
fn say_empty(text: &mut Vec<u8>) -> Result<(), AllocError>
    ensures { OnOk result (text.new.items ≡ or_empty text.old.items) }
{
    if text.is_empty() {
        return text.extend_from_slice(b"empty\n");
    }
    Ok(())
}

// The line of a state that so many cells have, if some do.
fn push_count(text: &mut Vec<u8>, state: u8, count: u128) -> Result<(), AllocError>
    ensures { OnOk result (text.new.items ≡ text.old.items ++ count_line state count) }
{
    if count == 0 {
        return Ok(());
    }
    let mut buffer = Buffer::new();
    text.extend_from_slice(buffer.format(state).as_bytes())?;
    text.extend_from_slice(b" ")?;
    text.extend_from_slice(buffer.format(count).as_bytes())?;
    text.extend_from_slice(b"\n")
}
