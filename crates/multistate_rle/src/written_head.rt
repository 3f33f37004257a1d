//! Writing what stands before the body.
ghost use Rattle.std.specs.Prelude.{◌≡◌, ◌++◌, IfOk, OnOk};
ghost use Rattle.multistate_rle.specs.PatternText.{place_text, generation_text, size_line};

use crate::frame::Frame;
use crate::numbers::{push_number, push_signed};
use std::alloc::{AllocError, Global};

/// A text of the lines before the body: the pattern's place and generation, then its size and the
/// rule's name.
pub(crate) fn write_head(
    alloc: Global,
    frame: &Frame,
    name: &[u8],
    generation: u64,
) -> Result<Vec<u8>, AllocError>
    ensures { IfOk result (λ text. text.items
        ≡ place_text frame.now ++ generation_text generation ++ size_line frame.now name.now) }
{
    let mut text = Vec::new(alloc);
    push_place(&mut text, frame)?;
    push_generation(&mut text, generation)?;
    push_size(&mut text, frame, name)?;
    Ok(text)
}

// Adds the pattern's place.
fn push_place(text: &mut Vec<u8>, frame: &Frame) -> Result<(), AllocError>
    ensures { OnOk result (text.new.items ≡ text.old.items ++ place_text frame.now) }
{
    text.extend_from_slice(b"#CXRLE Pos=")?;
    push_signed(text, frame.left)?;
    text.extend_from_slice(b",")?;
    push_signed(text, frame.top)
}

// Adds the generation, which ends the line.
fn push_generation(text: &mut Vec<u8>, generation: u64) -> Result<(), AllocError>
    ensures { OnOk result (text.new.items ≡ text.old.items ++ generation_text generation) }
{
    text.extend_from_slice(b" Gen=")?;
    push_number(text, generation)?;
    text.extend_from_slice(b"\n")
}

// Adds the line of the size and the rule's name.
fn push_size(text: &mut Vec<u8>, frame: &Frame, name: &[u8]) -> Result<(), AllocError>
    ensures { OnOk result (text.new.items ≡ text.old.items ++ size_line frame.now name.now) }
{
    text.extend_from_slice(b"x = ")?;
    push_number(text, frame.width)?;
    text.extend_from_slice(b", y = ")?;
    push_number(text, frame.height)?;
    text.extend_from_slice(b", rule = ")?;
    text.extend_from_slice(name)?;
    text.extend_from_slice(b"\n")
}
