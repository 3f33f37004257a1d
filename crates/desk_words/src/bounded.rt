//! A number with a least and a most.
ghost use Rattle.std.specs.Prelude.{◌≡◌, ◌≤◌};

use std::marker::Model;
use std::str::FromStr;

/// A number from `LEAST` to `MOST`.
#[derive(Clone, Copy, Debug, PartialEq, Eq)]
pub struct Bounded<const LEAST: u32, const MOST: u32> {
    number: u32,
}

impl<const LEAST: u32, const MOST: u32> Model for Bounded<LEAST, MOST> {
    ghost use Rattle.std.specs.Prelude.{ℕ, ◌≤◌};

    ghost Value = { ℕ };

    ghost view = { λ bounded. bounded.number };

    ghost invariant = { λ bounded. (LEAST ≤ bounded.number) × (bounded.number ≤ MOST) };

    ghost inverse = { λ number. record { number = number } };
}

impl<const LEAST: u32, const MOST: u32> Bounded<LEAST, MOST> {
    pub(crate) fn new(number: u32) -> Self
        requires { (LEAST ≤ number) × (number ≤ MOST) }
        ensures { result ≡ number }
    {
        Bounded { number }
    }

    /// The number.
    pub fn get(self) -> u32
        ensures value { result ≡ self.entry }
        ensures range { (LEAST ≤ result) × (result ≤ MOST) }
    {
        self.number
    }
}

/// A text is no number of the range.
#[derive(Clone, Copy, Debug, PartialEq, Eq)]
pub struct OutOfRange;

impl<const LEAST: u32, const MOST: u32> FromStr for Bounded<LEAST, MOST> {
    ghost use Rattle.std.specs.Result.{OkIff};
    ghost use Rattle.desk_words.specs.Bounded.{IsNumberWithin, number_in};

    type Err = OutOfRange;

    ghost from_str_gives = { λ text result.
        OkIff result (IsNumberWithin LEAST MOST text) (number_in text) };

    fn from_str(text: &str) -> Result<Self, OutOfRange> {
        match text.parse::<u32>() {
            Ok(number) if LEAST <= number && number <= MOST => Ok(Bounded::new(number)),
            _ => Err(OutOfRange),
        }
    }
}
