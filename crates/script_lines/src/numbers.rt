//! Numbers that a line names, brought into the range of their place.
ghost use Rattle.std.specs.Prelude.{◌≡◌, ◌^◌, ◌≤◌, min, pos, neg_ℤ};
ghost use Rattle.std.specs.Option.{option_map};
ghost use Rattle.std.specs.Int.{saturate_signed, w64};
ghost use Rattle.text_lines.specs.Numbers.{number_of};
ghost use Rattle.script_lines.specs.Numbers.{integer_of};

use text_lines::number;

/// The number that the word's digits write, or `most` if it is greater. None where the word has
/// no digit, or any other byte.
pub fn unsigned(word: &[u8], most: u64) -> Option<u64>
    ensures { result ≡ option_map (λ n. min n most) (number_of word.now) }
{
    Some(number(word)?.min(most))
}

/// The number that the word's digits write, behind a minus sign or none, or the end of i64 that
/// is nearest to it. None where the word has no digit, or any other byte.
pub fn signed(word: &[u8]) -> Option<i64>
    ensures { result ≡ option_map (saturate_signed w64) (integer_of word.now) }
{
    match word {
        [b'-', digits @ ..] => Some(negative(unsigned(digits, 1 << 63)?)),
        _ => Some(unsigned(word, i64::MAX as u64)? as i64),
    }
}

// The number below zero, of at most 2^63.
fn negative(number: u64) -> i64
    requires { number ≤ 2 ^ 63 }
    ensures { result ≡ neg_ℤ (pos number) }
{
    if number == 1 << 63 {
        return i64::MIN;
    }
    -(number as i64)
}
