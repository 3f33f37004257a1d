//! Comments that say where a pattern lies and which generation it is.
ghost use Rattle.std.specs.Prelude.{◌≡◌, IfOk, IsOk, codes, fold, true, None};
ghost use Rattle.std.specs.List.{slice_split};
ghost use Rattle.text_lines.specs.Blanks.{is_blank};
ghost use Rattle.multistate_rle.specs.Cut.{after};
ghost use Rattle.multistate_rle.specs.Comments.{after_comment, after_part, coordinate_of, generation_in, is_sign, place_in, plain_origin, starts_loose, tight};

use crate::cut::{after, cut_at};
use std::alloc::{AllocError, Global};
use text_lines::{is_blank, number};

/// Where the top left cell of a pattern lies, and which generation the pattern is.
#[derive(Clone, Copy, Debug, PartialEq, Eq)]
pub(crate) struct Origin {
    pub(crate) x: i64,
    pub(crate) y: i64,
    pub(crate) generation: u64,
}

/// The origin where no comment gives one: (0, 0) and the generation 0.
pub(crate) fn plain_origin() -> Origin
    ensures { result ≡ plain_origin }
{
    Origin {
        x: 0,
        y: 0,
        generation: 0,
    }
}

/// The origin after one more comment line, which changes it, and allocates, only if it begins
/// with `#CXRLE`.
pub(crate) fn after_comment(
    alloc: Global,
    origin: Origin,
    line: &[u8],
) -> Result<Origin, AllocError>
    ensures origin { IfOk result (λ next. next ≡ after_comment origin line.now) }
    ensures other { after (codes "#CXRLE") line.now ≡ None → IsOk result }
{
    match after(b"#CXRLE", line) {
        Some(bytes) => Ok(after_parts(origin, &tight(alloc, bytes)?)),
        None => Ok(origin),
    }
}

// The origin after the parts of a comment, which blanks separate.
fn after_parts(origin: Origin, bytes: &[u8]) -> Origin
    ensures { result ≡ fold after_part origin (slice_split is_blank bytes.now) }
{
    bytes
        .split(|b| is_blank(*b))
        .fold(origin, |found, part| after_part(found, part))
}

// The origin after one part; a part that is malformed or unknown changes nothing.
fn after_part(origin: Origin, part: &[u8]) -> Origin
    ensures { result ≡ after_part origin part.now }
{
    if let Some((x, y)) = place_in(part) {
        return Origin { x, y, ..origin };
    }
    if let Some(generation) = generation_in(part) {
        return Origin {
            generation,
            ..origin
        };
    }
    origin
}

// The place that a part `Pos=x,y` gives.
fn place_in(part: &[u8]) -> Option<(i64, i64)>
    ensures { result ≡ place_in part.now }
{
    let place = after(b"Pos=", part)?;
    let (x, y) = cut_at(place, b',')?;
    let x = coordinate(x)?;
    let y = coordinate(y)?;
    Some((x, y))
}

// The generation that a part `Gen=n` gives, 2^64 - 1 if n is greater.
fn generation_in(part: &[u8]) -> Option<u64>
    ensures { result ≡ generation_in part.now }
{
    number(after(b"Gen=", part)?)
}

// The number that digits with or without a minus before them write, if it is one of 64 bits.
fn coordinate(bytes: &[u8]) -> Option<i64>
    ensures { result ≡ coordinate_of bytes.now }
{
    match bytes {
        [b'-', digits @ ..] => {
            let magnitude = number(digits)?;
            if magnitude <= 1 << 63 {
                Some((-i128::from(magnitude)) as i64)
            } else {
                None
            }
        }
        _ => {
            let magnitude = number(bytes)?;
            if magnitude < 1 << 63 {
                Some(magnitude as i64)
            } else {
                None
            }
        }
    }
}

// The bytes with one blank between two words, and none around the signs `=` and `,`.
fn tight(alloc: Global, bytes: &[u8]) -> Result<Vec<u8>, AllocError>
    ensures { IfOk result (λ kept. kept.items ≡ tight true bytes.now) }
{
    let mut kept = Vec::new(alloc);
    let mut joined = true;
    let mut left = bytes;
    while let [byte, rest @ ..] = left {
        if !is_blank(*byte) {
            kept.push(*byte)?;
            joined = is_sign(*byte);
        } else if !(joined || starts_loose(rest)) {
            kept.push(*byte)?;
        }
        left = rest;
    }
    Ok(kept)
}

// Whether nothing, a blank or a sign comes first.
fn starts_loose(bytes: &[u8]) -> bool
    ensures { result ≡ starts_loose bytes.now }
{
    match bytes {
        [] => true,
        [byte, ..] => is_blank(*byte) || is_sign(*byte),
    }
}

fn is_sign(byte: u8) -> bool
    ensures { result ≡ is_sign byte }
{
    byte == b'=' || byte == b','
}
