//! The header line `x = m, y = n, rule = name`.
ghost use Rattle.std.specs.Prelude.{◌≡◌, ◌≢◌, Err, is_some, ◌^◌, ◌-◌, min};
ghost use Rattle.std.specs.Option.{option_copied, option_map};
ghost use Rattle.basics.specs.Results.{Reads};
ghost use Rattle.multistate_rle.specs.Header.{name_after_width, name_in, rule_name, size_in, value_in};

use crate::cut::{begins_with, cut_at};
use crate::fault::RleFault;
use text_lines::{number, trim};

/// The rule's name that a header gives, empty where it gives none.
///
/// A line that doesn't begin with `x` is refused by NoHeader, any other that is no header by
/// BadHeader, and one whose rule's name has a colon by BoundedGrid. The sizes bound nothing.
pub(crate) fn rule_name(line: &[u8]) -> Result<&[u8], RleFault>
    ensures name { Reads (λ name. name.now) result (rule_name line.now) }
    ensures fault { result ≢ Err RleFault.NoMemory }
{
    if !begins_with(line, b'x') {
        return Err(RleFault::NoHeader);
    }
    let Some(name) = name_in(line) else {
        return Err(RleFault::BadHeader);
    };
    if cut_at(name, b':').is_some() {
        return Err(RleFault::BoundedGrid);
    }
    Ok(name)
}

// The name in a line `x = m, y = n` or `x = m, y = n, rule = name`.
fn name_in(line: &[u8]) -> Option<&[u8]>
    ensures { option_copied result ≡ name_in line.now }
{
    let (width, rest) = cut_at(line, b',')?;
    size_in(b"x", width)?;
    name_after_width(rest)
}

// The name in what follows the width and its comma.
fn name_after_width(rest: &[u8]) -> Option<&[u8]>
    ensures { option_copied result ≡ name_after_width rest.now }
{
    match cut_at(rest, b',') {
        Some((height, rule)) => {
            size_in(b"y", height)?;
            value_in(b"rule", rule)
        }
        None => {
            size_in(b"y", rest)?;
            Some(b"")
        }
    }
}

// The size that a field of this key gives; one beyond 64 bits is as good as any.
fn size_in(key: &[u8], field: &[u8]) -> Option<u64>
    ensures { result ≡ option_map (min (2 ^ 64 - 1)) (size_in key.now field.now) }
{
    number(value_in(key, field)?)
}

// The value of a field `key = value`, without blanks at its ends.
fn value_in<'a>(key: &[u8], field: &'a [u8]) -> Option<&'a [u8]>
    ensures { option_copied result ≡ value_in key.now field.now }
{
    let (name, value) = cut_at(field, b'=')?;
    if trim(name) == key {
        Some(trim(value))
    } else {
        None
    }
}
