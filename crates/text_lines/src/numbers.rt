//! Decimal numbers of any length.
ghost use Rattle.std.specs.Prelude.{◌≡◌, ◌-◌, ◌^◌, min};
ghost use Rattle.std.specs.Option.{option_map};
ghost use Rattle.text_lines.specs.Numbers.{number_of};

/// The number that decimal digits write, or 2^64 - 1 if it is greater. None where there is no
/// digit, or any other byte.
#[tactic(auto, using(std::proofs::lemmas::Grind::common_steps, crate::proofs::Shared::Decimals::digits_value_more_min))]
pub fn number(digits: &[u8]) -> Option<u64>
    ensures { result ≡ option_map (min (2 ^ 64 - 1)) (number_of digits.now) }
{
    if digits.is_empty() {
        return None;
    }
    let mut number = 0u64;
    for digit in digits {
        if !digit.is_ascii_digit() {
            return None;
        }
        number = number
            .saturating_mul(10)
            .saturating_add(u64::from(*digit - b'0'));
    }
    Some(number)
}
